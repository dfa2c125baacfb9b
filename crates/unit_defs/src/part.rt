//! What unit files say.
ghost use Rattle.std.specs.Prelude.{◌≡◌, ◌++◌, IfOk, OnOk, option_map};
ghost use Rattle.std.specs.Option.{option_copied, option_or};
ghost use Rattle.unit_defs.specs.Part.{line_of, part_of};

use std::alloc::{AllocError, Global};
use switch_names::Bytes;
use unit_text::{TextFault, UnitText, parse_beside};

/// What one file says, or several one after the other.
pub struct FilePart {
    /// The assignments, without those of files that can't be read.
    pub text: UnitText,
    /// The line of the first fault.
    pub fault: Option<u32>,
}

/// One call: a derived drop is proved anew in each function that lets one go.
impl Drop for FilePart {
    fn drop(self) {
        let FilePart { text: _, fault: _ } = self;
    }
}

/// The line that a fault names.
fn line_of(fault: TextFault) -> u32
    ensures { result ≡ line_of fault }
{
    match fault {
        TextFault::Section(line)
        | TextFault::Key(line)
        | TextFault::NoSection(line)
        | TextFault::Utf8(line) => line,
        TextFault::Memory => 0,
    }
}

impl FilePart {
    /// Reads a file, where it has content, beside a text that may begin with the same file.
    pub fn read(
        alloc: Global,
        content: Option<&Bytes>,
        beside: Option<&UnitText>,
    ) -> Result<Option<FilePart>, AllocError>
        ensures { IfOk result (λ part. part ≡ option_map part_of (option_copied content.entry)) }
    {
        let Some(bytes) = content else {
            return Ok(None);
        };
        match parse_beside(alloc, bytes.as_slice(), beside) {
            Ok(text) => Ok(Some(FilePart { text, fault: None })),
            Err(TextFault::Memory) => Err(AllocError),
            Err(fault) => Ok(Some(FilePart {
                text: UnitText::empty(alloc),
                fault: Some(line_of(fault)),
            })),
        }
    }

    /// An equal part.
    pub fn copy(&self, alloc: Global) -> Result<FilePart, AllocError>
        ensures { IfOk result (λ copied. copied ≡ self.now) }
    {
        Ok(FilePart {
            text: self.text.copy(alloc)?,
            fault: self.fault,
        })
    }

    /// Applies a later part.
    pub fn add(&mut self, alloc: Global, later: &FilePart) -> Result<(), AllocError>
        ensures text { OnOk result (self.new.text ≡ self.old.text ++ later.now.text) }
        ensures fault { OnOk result (self.new.fault ≡ option_or self.old.fault later.now.fault) }
    {
        self.text.add(alloc, &later.text)?;
        self.fault = self.fault.or(later.fault);
        Ok(())
    }
}
