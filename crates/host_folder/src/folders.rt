//! The folders on the way to a leaf.
ghost use Rattle.std.specs.Prelude.{◌≡◌, ◌++◌, ◌∷◌, codes, IfOk};
ghost use Rattle.switch_names.specs.Path.{slash};

use crate::fault::Fault;
use host_files::{
    FolderId, PlaceKind, Syncing, clear_folder, foreign, look, make_folder, place_in, sync_folder,
};
use std::alloc::{AllocError, Global};
use std::collections::{BTreeMap, BTreeSet};
use std::rt::Files;
use std::{fs, io, mem};
use switch_names::{Path, Text};

/// What becomes of a folder on the way that is missing.
#[derive(Clone, Copy)]
pub enum Missing {
    /// It stays so.
    Stays,
    /// It is made.
    IsMade,
}

/// The tree's folder, the folders in it that were looked at and are no links, each with which one it is, and those in
/// which something was changed since the last sync, where they are synced.
///
/// What stands in such a folder is read without another look at the way there. Before something changes in it,
/// it is looked at again. A folder is known only where the one that it is in was still the same once it was looked at:
/// so all those above it were, as far as the tree's own.
pub struct Folders {
    root: Text,
    tree: Text,
    known: BTreeMap<String, FolderId>,
    changed: BTreeSet<String>,
    syncing: Syncing,
}

/// One call: a derived drop is proved anew in each function that lets one go.
impl Drop for Folders {
    fn drop(self) {
        let Folders {
            root: _,
            tree: _,
            known: _,
            changed: _,
            syncing: _,
        } = self;
    }
}

/// The folders at or below which leaves are put, by their paths in the tree.
const WRITTEN: [&str; 5] = ["/boot", "/etc", "/nix/var", "/run/nixos", "/var/lib/nixos"];

/// Whether a path is another one or lies below it.
fn is_within(path: &str, other: &str) -> bool {
    match path.strip_prefix(other) {
        Some(rest) => rest.is_empty() || rest.starts_with('/'),
        None => false,
    }
}

impl Folders {
    /// The folders of the tree below this root.
    pub fn new(alloc: Global, root: &str) -> Result<Folders, AllocError>
        ensures root { IfOk result (λ folders. folders.root ≡ root.now) }
        ensures tree { IfOk result (λ folders. folders.tree ≡ root.now ++ codes "/tree") }
    {
        Ok(Folders {
            root: Text::from_str(alloc, root)?,
            tree: place_in(alloc, root, "tree")?,
            known: BTreeMap::new(alloc),
            changed: BTreeSet::new(alloc),
            syncing: Syncing::On,
        })
    }

    /// Whether files and folders are synced.
    pub fn syncing(&self) -> Syncing {
        self.syncing
    }

    /// Says whether files and folders are synced from here on.
    pub fn set_syncing(&mut self, syncing: Syncing) {
        self.syncing = syncing;
    }

    /// The root, below which everything stands. An empty one is no folder.
    pub fn root(&self) -> io::Result<&str> {
        let root = self.root.as_str();
        if root.is_empty() {
            return Err(foreign("no root is named"));
        }
        Ok(root)
    }

    /// The line of a fault that came from a call on the tree or the root.
    pub fn line_of(&self, alloc: Global, fault: &Fault) -> Result<Text, AllocError> {
        fault.line(alloc, self.root.as_str(), self.tree.as_str())
    }

    /// The place of the tree's own folder, where it stands. An empty root is no folder.
    pub fn own_place<R: Files>(&mut self, rt: &R, alloc: Global) -> io::Result<Option<Text>> {
        self.root()?;
        let place = self.tree.copy(alloc)?;
        if self.has_folder(rt, alloc, place.as_str(), Missing::Stays)? {
            return Ok(Some(place));
        }
        Ok(None)
    }

    /// The place of a path's leaf, below the tree's folder. An empty root is no folder.
    pub fn place(&self, alloc: Global, at: &Path) -> io::Result<Text>
        ensures { IfOk result (λ place. place ≡ self.now.tree ++ slash ∷ at.now) }
    {
        self.root()?;
        Ok(place_in(alloc, self.tree.as_str(), at.as_str())?)
    }

    /// Whether each folder on the way to a place of the tree stands, or was made.
    pub fn lead_to<R: Files>(
        &mut self,
        rt: &R,
        alloc: Global,
        place: &str,
        missing: Missing,
    ) -> io::Result<bool> {
        let Some((parent, _)) = place.rsplit_once('/') else {
            return Ok(false);
        };
        if self.known.contains_key(parent) {
            return Ok(true);
        }
        if !place.starts_with(self.tree.as_str()) {
            return Ok(false);
        }
        self.lead_along(rt, alloc, place, missing)
    }

    /// Whether the tree's folder and each one in it on the way to a place stands, or was made.
    fn lead_along<R: Files>(
        &mut self,
        rt: &R,
        alloc: Global,
        place: &str,
        missing: Missing,
    ) -> io::Result<bool> {
        for end in self.tree.as_str().len()..place.len() {
            if !self.leads_past(rt, alloc, place, end, missing)? {
                return Ok(false);
            }
        }
        Ok(true)
    }

    /// Whether the folder on the way to a place that ends here stands, or was made. None may end here.
    fn leads_past<R: Files>(
        &mut self,
        rt: &R,
        alloc: Global,
        place: &str,
        end: usize,
        missing: Missing,
    ) -> io::Result<bool> {
        match place.split_at_checked(end) {
            Some((folder, rest)) if rest.starts_with('/') => {
                self.has_folder(rt, alloc, folder, missing)
            }
            _ => Ok(true),
        }
    }

    /// What stands at a place of the tree. Nothing stands where a folder on the way is missing.
    pub fn find<R: Files>(&mut self, rt: &R, alloc: Global, place: &str) -> io::Result<PlaceKind> {
        if !self.lead_to(rt, alloc, place, Missing::Stays)? {
            return Ok(PlaceKind::Nothing);
        }
        look(rt, place)
    }

    /// Whether a folder stands, or was made, where those on the way to it do.
    fn has_folder<R: Files>(
        &mut self,
        rt: &R,
        alloc: Global,
        folder: &str,
        missing: Missing,
    ) -> io::Result<bool> {
        if self.known.contains_key(folder) {
            return Ok(true);
        }
        let id = match look(rt, folder)? {
            PlaceKind::Folder(id) => id,
            _ if matches!(missing, Missing::Stays) => return Ok(false),
            PlaceKind::Nothing => self.make(rt, alloc, folder)?,
            PlaceKind::File(_) => return Err(foreign("not a folder")),
        };
        self.remember(rt, alloc, folder, id)?;
        Ok(true)
    }

    /// Makes a folder of the tree, and the root before the tree's own, and says which one it is.
    fn make<R: Files>(&mut self, rt: &R, alloc: Global, folder: &str) -> io::Result<FolderId> {
        if folder == self.tree.as_str() {
            fs::create_dir_all(rt, self.root.as_str())?;
        }
        if let Some((above, _)) = folder.rsplit_once('/') {
            self.note_change(alloc, above)?;
        }
        self.check_above(rt, folder)?;
        make_folder(rt, folder)
    }

    /// Looks once more at a folder that was looked at, by one system call. It is a fault where another one
    /// stands there now, or where a link leads to it.
    fn check_folder<R: Files>(&self, rt: &R, folder: &str) -> io::Result<()> {
        match (self.known.get(folder), look(rt, folder)?) {
            (Some(known), PlaceKind::Folder(id)) if *known == id => Ok(()),
            _ => Err(foreign("another folder than before")),
        }
    }

    /// Looks once more at the folder that one of the tree is in. What the tree's own is in isn't looked at.
    fn check_above<R: Files>(&self, rt: &R, folder: &str) -> io::Result<()> {
        match folder.rsplit_once('/') {
            Some((above, _)) if folder != self.tree.as_str() => self.check_folder(rt, above),
            _ => Ok(()),
        }
    }

    /// Whether a folder of the tree stands, after another look at it.
    fn stands<R: Files>(&mut self, rt: &R, alloc: Global, folder: &str) -> io::Result<bool> {
        if self.known.contains_key(folder) {
            self.check_folder(rt, folder)?;
            return Ok(true);
        }
        if !self.lead_to(rt, alloc, folder, Missing::Stays)? {
            return Ok(false);
        }
        self.has_folder(rt, alloc, folder, Missing::Stays)
    }

    /// Looks once more at the folder of a place, right before something changes in it.
    pub fn look_again<R: Files>(&mut self, rt: &R, alloc: Global, place: &str) -> io::Result<()> {
        let Some((folder, _)) = place.rsplit_once('/') else {
            return Err(foreign("in no folder"));
        };
        self.note_change(alloc, folder)?;
        if self.stands(rt, alloc, folder)? {
            return Ok(());
        }
        Err(foreign("in a folder that isn't there"))
    }

    /// Notes that something is to change in a folder, for the next sync.
    fn note_change(&mut self, alloc: Global, folder: &str) -> Result<(), AllocError> {
        if !self.changed.contains(folder) {
            self.changed.insert(String::from_str(alloc, folder)?)?;
        }
        Ok(())
    }

    /// The root, in which something is to change.
    pub fn changing_root(&mut self, alloc: Global) -> io::Result<&str> {
        let root = Text::from_str(alloc, self.root()?)?;
        self.note_change(alloc, root.as_str())?;
        self.root()
    }

    /// Removes a folder of the tree that holds nothing but empty ones. Each folder is then looked at anew.
    pub fn clear<R: Files + AllocGlobal + Clone + Drop>(
        &mut self,
        rt: &R,
        alloc: Global,
        place: &str,
    ) -> io::Result<()> {
        self.look_again(rt, alloc, place)?;
        self.known.clear();
        clear_folder(rt, alloc, place)
    }

    /// Whether the stage may be moved to a place in a folder, or in one that lies above or below it.
    fn is_written(&self, folder: &str) -> bool {
        let Some(path) = folder.strip_prefix(self.tree.as_str()) else {
            return false;
        };
        for written in WRITTEN {
            if is_within(path, written) || is_within(written, path) {
                return true;
            }
        }
        false
    }

    /// It is a fault where a folder that was looked at, and in or below which a leaf may be put, is on another file system
    /// than the tree's own: the stage can't be moved there.
    fn check_file_system<R: Files>(&self, rt: &R, folder: &str, id: FolderId) -> io::Result<()> {
        match self.known.get(self.tree.as_str()) {
            Some(tree) if !tree.is_beside(&id) && self.is_written(folder) => {
                // The fault has the place of the last call on files, which may have been another one.
                look(rt, folder)?;
                Err(foreign("on another file system"))
            }
            _ => Ok(()),
        }
    }

    /// Notes which folder it is that was looked at, where the one that it is in is still the same.
    pub fn remember<R: Files>(
        &mut self,
        rt: &R,
        alloc: Global,
        folder: &str,
        id: FolderId,
    ) -> io::Result<()> {
        self.check_file_system(rt, folder, id)?;
        self.check_above(rt, folder)?;
        self.known.insert(String::from_str(alloc, folder)?, id)?;
        Ok(())
    }

    /// Syncs a folder in which something was changed. One that was taken away since then has no names to keep.
    fn sync_folder<R: Files>(&mut self, rt: &R, alloc: Global, folder: &str) -> io::Result<()> {
        if folder != self.root.as_str() && !self.stands(rt, alloc, folder)? {
            return Ok(());
        }
        sync_folder(rt, folder)
    }

    /// Syncs each of these folders.
    fn sync_each<R: Files>(
        &mut self,
        rt: &R,
        alloc: Global,
        folders: &BTreeSet<String>,
    ) -> io::Result<()> {
        for folder in folders.iter() {
            self.sync_folder(rt, alloc, folder.as_str())?;
        }
        Ok(())
    }

    /// Syncs each folder in which something was changed. Where one fails, all are still to be synced.
    fn sync_changed<R: Files>(&mut self, rt: &R, alloc: Global) -> io::Result<()> {
        let changed = mem::replace(&mut self.changed, BTreeSet::new(alloc));
        let answer = self.sync_each(rt, alloc, &changed);
        if answer.is_err() {
            self.changed = changed;
        }
        answer
    }

    /// Syncs each folder in which something was changed since the last sync, where folders are synced. An empty root is
    /// no folder.
    pub fn sync<R: Files>(&mut self, rt: &R, alloc: Global) -> io::Result<()> {
        self.root()?;
        match self.syncing {
            Syncing::On => self.sync_changed(rt, alloc),
            Syncing::Off => Ok(()),
        }
    }
}
