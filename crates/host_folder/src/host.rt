//! The host over a folder.
ghost use Rattle.std.specs.Prelude.{◌≡◌, ◌++◌, [], codes, IfOk};
ghost use Rattle.host_trait.specs.Host.{HasCause};
ghost use Rattle.host_folder.specs.Folder.{silent_state, silent_is_host};

use crate::fault::Fault;
use crate::folders::Folders;
use crate::listing::{list_leaves, list_tops};
use crate::service::Service;
use crate::stage::{Stage, move_leaf, write_leaf};
use host_files::{PlaceKind, Syncing, Watched, append_bytes, fault_of, foreign, read_leaf};
use host_trait::{Act, HostFault, Leaf, Manager, States, Tree, definitions_path};
use std::alloc::{AllocError, Global};
use std::cell::Cell;
use std::rt::Files;
use std::{fs, io};
use switch_names::{Listed, Path, Text, UnitName};

/// A host over a folder of the file system. It tells nothing of its world.
///
/// A node or a manager's state that can't be read, a name that is none of a path or isn't UTF-8, a symbolic link or a
/// special file below the tree or at the manager's file, and whatever the file system refuses, is a fault that is
/// counted. So is a folder of the tree on another file system than the tree's own, by the call that first looks at it:
/// the stage can't be moved there (rename(2), `EXDEV`). Folders in which nothing is put may be on others,
/// as the store. Where the same file system is mounted once more below the tree, the move itself is the fault.
pub struct FolderHost<R: Files + AllocGlobal + Clone + Drop> {
    rt: R,
    tree: Folders,
    stage: Stage,
    service: Service,
    faults: u64,
    place: Cell<Option<String>>,
    last_fault: Option<Fault>,
}

/// One call: a derived drop is proved anew in each function that lets one go.
impl<R: Files + AllocGlobal + Clone + Drop> Drop for FolderHost<R> {
    fn drop(self) {
        let FolderHost {
            rt: _,
            tree: _,
            stage: _,
            service: _,
            faults: _,
            place: _,
            last_fault: _,
        } = self;
    }
}

/// The leaf at a path.
fn leaf_at<R: Files>(
    rt: &R,
    alloc: Global,
    tree: &mut Folders,
    at: &Path,
) -> io::Result<Option<Leaf>> {
    let place = tree.place(alloc, at)?;
    match tree.find(rt, alloc, place.as_str())? {
        PlaceKind::File(len) => Ok(Some(read_leaf(rt, alloc, place.as_str(), len)?)),
        _ => Ok(None),
    }
}

/// Removes the leaf at a path.
fn remove_at<R: Files>(rt: &R, alloc: Global, tree: &mut Folders, at: &Path) -> io::Result<()> {
    let place = tree.place(alloc, at)?;
    match tree.find(rt, alloc, place.as_str())? {
        PlaceKind::File(_) => {
            tree.look_again(rt, alloc, place.as_str())?;
            fs::remove_file(rt, place.as_str())
        }
        _ => Ok(()),
    }
}

/// Appends bytes to the file at a path, which is there.
fn append_at<R: Files>(
    rt: &R,
    alloc: Global,
    tree: &mut Folders,
    at: &Path,
    bytes: &[u8],
) -> io::Result<()> {
    let place = tree.place(alloc, at)?;
    let PlaceKind::File(_) = tree.find(rt, alloc, place.as_str())? else {
        return Err(foreign("no file"));
    };
    tree.look_again(rt, alloc, place.as_str())?;
    append_bytes(rt, place.as_str(), bytes, tree.syncing())
}

/// Loads the definitions to which the link at their place leads.
fn load<R: Files>(
    rt: &R,
    alloc: Global,
    tree: &mut Folders,
    service: &mut Service,
) -> io::Result<()> {
    let at = definitions_path(alloc)?;
    let leaf = leaf_at(rt, alloc, tree, &at)?;
    service.load(rt, alloc, tree, leaf.as_ref())
}

impl<R: Files + AllocGlobal + Clone + Drop> FolderHost<R> {
    /// A host over this root folder, which need not exist yet. No file call is made.
    pub fn open(rt: &R, root: &str) -> Result<FolderHost<R>, AllocError>
        ensures faults { IfOk result (λ host. host.faults ≡ 0) }
        ensures root { IfOk result (λ host. host.tree.root ≡ root.now) }
        ensures tree { IfOk result (λ host. host.tree.tree ≡ root.now ++ codes "/tree") }
        ensures manager { IfOk result (λ host. host.service.file.place ≡ root.now ++ codes "/manager") }
    {
        Ok(FolderHost {
            rt: rt.clone()?,
            tree: Folders::new(rt.alloc(), root)?,
            stage: Stage::Unseen,
            service: Service::new(rt.alloc(), root)?,
            faults: 0,
            place: Cell::new(Some(String::new(rt.alloc()))),
            last_fault: None,
        })
    }

    /// Says whether files and folders are synced from here on. They are while nothing else was said.
    pub fn set_syncing(&mut self, syncing: Syncing)
        ensures { self.new.faults ≡ self.old.faults }
    {
        self.tree.set_syncing(syncing);
    }

    /// How many calls have failed, as far as a `u64` counts.
    pub fn faults(&self) -> u64
        ensures { result ≡ self.now.faults }
    {
        self.faults
    }

    /// The line that names the place and the cause of the last call that has failed.
    pub fn last_fault(&self, alloc: Global) -> Result<Option<Text>, AllocError> {
        match &self.last_fault {
            Some(fault) => Ok(Some(self.tree.line_of(alloc, fault)?)),
            None => Ok(None),
        }
    }

    /// Keeps an error as the last fault, with the place of the last call on files.
    fn keep(&mut self, error: io::Error)
        ensures { self.new.faults ≡ self.old.faults }
    {
        let place = self.place.replace(Some(String::new(self.rt.alloc())));
        self.last_fault = Some(Fault::new(error, place));
    }

    /// The answer of a call, counted where it is a fault of the device.
    fn counted<T: Drop>(&mut self, answer: io::Result<T>) -> Result<T, HostFault>
        ensures { HasCause (silent_state self.old.faults) (silent_state self.new.faults) result }
    {
        match answer {
            Ok(given) => Ok(given),
            Err(error) => {
                let fault = fault_of(&error);
                if fault == HostFault::Device {
                    self.faults = self.faults.saturating_add(1);
                    self.keep(error);
                }
                Err(fault)
            }
        }
    }
}

#[tactic(auto, using(crate::proofs::Silence::silence))]
impl<R: Files + AllocGlobal + Clone + Drop> Tree for FolderHost<R> {
    ghost host = { λ host. silent_state host.faults };

    ghost waiting = { λ host. [] };

    fn read(&mut self, alloc: Global, at: &Path) -> Result<Option<Leaf>, HostFault> {
        let answer = leaf_at(
            &Watched::new(&self.rt, &self.place),
            alloc,
            &mut self.tree,
            at,
        );
        self.counted(answer)
    }

    fn list(&mut self, alloc: Global, under: &Path) -> Result<Listed<Path>, HostFault> {
        let answer = list_leaves(
            &Watched::new(&self.rt, &self.place),
            alloc,
            &mut self.tree,
            under,
        );
        self.counted(answer)
    }

    fn tops(&mut self, alloc: Global) -> Result<Listed<Path>, HostFault> {
        let answer = list_tops(&Watched::new(&self.rt, &self.place), alloc, &mut self.tree);
        self.counted(answer)
    }

    fn sync(&mut self, alloc: Global) -> Result<(), HostFault> {
        let answer = self.tree.sync(&Watched::new(&self.rt, &self.place), alloc);
        self.counted(answer)
    }

    fn write_stage(&mut self, alloc: Global, leaf: &Leaf) -> Result<(), HostFault> {
        let answer = write_leaf(
            &Watched::new(&self.rt, &self.place),
            alloc,
            &mut self.tree,
            &mut self.stage,
            leaf,
        );
        self.counted(answer)
    }

    fn rename_stage(&mut self, alloc: Global, to: &Path) -> Result<(), HostFault> {
        let answer = move_leaf(
            &Watched::new(&self.rt, &self.place),
            alloc,
            &mut self.tree,
            &mut self.stage,
            to,
        );
        self.counted(answer)
    }

    fn remove(&mut self, alloc: Global, at: &Path) -> Result<(), HostFault> {
        let answer = remove_at(
            &Watched::new(&self.rt, &self.place),
            alloc,
            &mut self.tree,
            at,
        );
        self.counted(answer)
    }

    fn append(&mut self, alloc: Global, at: &Path, bytes: &[u8]) -> Result<(), HostFault> {
        let answer = append_at(
            &Watched::new(&self.rt, &self.place),
            alloc,
            &mut self.tree,
            at,
            bytes,
        );
        self.counted(answer)
    }

    ghost is_host = { λ host. silent_is_host host.faults };
}

#[tactic(auto, using(crate::proofs::Silence::silence))]
impl<R: Files + AllocGlobal + Clone + Drop> Manager for FolderHost<R> {
    fn units(&mut self, alloc: Global) -> Result<States, HostFault> {
        let answer = self
            .service
            .units(&Watched::new(&self.rt, &self.place), alloc, &self.tree);
        self.counted(answer)
    }

    fn loaded(&mut self, alloc: Global) -> Result<Text, HostFault> {
        let answer = self
            .service
            .loaded(&Watched::new(&self.rt, &self.place), alloc, &self.tree);
        self.counted(answer)
    }

    fn stop(&mut self, alloc: Global, unit: &UnitName) -> Result<(), HostFault> {
        let answer = self.service.perform(
            &Watched::new(&self.rt, &self.place),
            alloc,
            &mut self.tree,
            Act::Stop,
            unit,
        );
        self.counted(answer)
    }

    fn start(&mut self, alloc: Global, unit: &UnitName) -> Result<(), HostFault> {
        let answer = self.service.perform(
            &Watched::new(&self.rt, &self.place),
            alloc,
            &mut self.tree,
            Act::Start,
            unit,
        );
        self.counted(answer)
    }

    fn restart(&mut self, alloc: Global, unit: &UnitName) -> Result<(), HostFault> {
        let answer = self.service.perform(
            &Watched::new(&self.rt, &self.place),
            alloc,
            &mut self.tree,
            Act::Restart,
            unit,
        );
        self.counted(answer)
    }

    fn reload(&mut self, alloc: Global, unit: &UnitName) -> Result<(), HostFault> {
        let answer = self.service.perform(
            &Watched::new(&self.rt, &self.place),
            alloc,
            &mut self.tree,
            Act::Reload,
            unit,
        );
        self.counted(answer)
    }

    fn daemon_reload(&mut self, alloc: Global) -> Result<(), HostFault> {
        let answer = load(
            &Watched::new(&self.rt, &self.place),
            alloc,
            &mut self.tree,
            &mut self.service,
        );
        self.counted(answer)
    }
}
