//! Reads a unit file line by line.
ghost use Rattle.std.specs.Prelude.{◌≡◌, ◌<◌, ◌∷◌, ◌++◌, [], ℕ, List, OnOk, IfOk, IfErr, IfSome, unwrap_or, true, false, None};
ghost use Rattle.unit_text.specs.Lines.{is_comment};
ghost use Rattle.switch_names.specs.Texts.{is_empty};
ghost use Rattle.unit_text.specs.Statement.{begins_section, statement_fault};
ghost use Rattle.unit_text.specs.TextFault.{IsRefusedBy, joined_fault, text_fault, utf8_fault};
ghost use Rattle.unit_text.specs.UnitText.{assignments};
ghost use Rattle.unit_text.specs.Reader.{fault_left, assignments_left, ended, Takes, Completes, Holds, Marks, ReadsOn};

use crate::assignment::Assignment;
use crate::lines::{before_backslash, is_comment, without_line_feed};
use crate::statement::{begins_section, capped, key_and_value, section_name, trimmed};
use crate::text_fault::TextFault;
use crate::unit_key::UnitKey;
use bstr::ByteSlice;
use std::alloc::Global;
use switch_names::Text;

/// The assignments so far, and the section that stands.
pub struct Body {
    section: Option<Text>,
    assignments: Vec<Assignment>,
}

/// One call: a derived drop is proved anew in each function that lets one go.
impl Drop for Body {
    fn drop(self) {
        let Body {
            section: _,
            assignments: _,
        } = self;
    }
}

impl Body {
    /// The assignments so far, without a copy.
    fn into_assignments(self) -> Vec<Assignment>
        ensures { result.items ≡ self.assignments.items }
    {
        let Body {
            section: _,
            assignments,
        } = self;
        assignments
    }

    fn begin_section(&mut self, alloc: Global, number: u64, text: &str) -> Result<(), TextFault>
        requires some { is_empty text.now ≡ false }
        requires section { begins_section text.now ≡ true }
        ensures ok { OnOk result (Takes self.old self.new number text.now) }
        ensures fault { IsRefusedBy result (statement_fault self.old.section number text.now) }
    {
        let Some(name) = section_name(text) else {
            return Err(TextFault::Section(capped(number)));
        };
        self.section = Some(Text::from_str(alloc, name)?);
        Ok(())
    }

    fn assign(&mut self, alloc: Global, number: u64, text: &str) -> Result<(), TextFault>
        requires some { is_empty text.now ≡ false }
        requires no_section { begins_section text.now ≡ false }
        ensures ok { OnOk result (Takes self.old self.new number text.now) }
        ensures fault { IsRefusedBy result (statement_fault self.old.section number text.now) }
    {
        let Some((key, value)) = key_and_value(text) else {
            return Err(TextFault::Key(capped(number)));
        };
        let Some(section) = &self.section else {
            return Err(TextFault::NoSection(capped(number)));
        };
        let at = UnitKey::from_strs(alloc, section.as_str(), key)?;
        let value = Text::from_str(alloc, value)?;
        self.assignments.push(Assignment { at, value })?;
        Ok(())
    }

    /// Takes a trimmed line as what it says.
    fn take(&mut self, alloc: Global, number: u64, text: &str) -> Result<(), TextFault>
        ensures ok { OnOk result (Takes self.old self.new number text.now) }
        ensures fault { IsRefusedBy result (statement_fault self.old.section number text.now) }
    {
        if text.is_empty() {
            Ok(())
        } else if begins_section(text) {
            self.begin_section(alloc, number, text)
        } else {
            self.assign(alloc, number, text)
        }
    }
}

/// What was read of a joined line that goes on.
pub struct ReadPart {
    first: u64,
    last: u64,
    text: String,
}

/// One call: a derived drop is proved anew in each function that lets one go.
impl Drop for ReadPart {
    fn drop(self) {
        let ReadPart {
            first: _,
            last: _,
            text: _,
        } = self;
    }
}

/// What was read of a file.
pub struct Reader {
    /// The first line that isn't UTF-8.
    bad: Option<u64>,
    part: Option<ReadPart>,
    body: Body,
}

/// One call: a derived drop is proved anew in each function that lets one go.
impl Drop for Reader {
    fn drop(self) {
        let Reader {
            bad: _,
            part: _,
            body: _,
        } = self;
    }
}

impl Reader {
    /// Nothing was read.
    pub fn new(alloc: Global) -> Reader
        ensures bad { result.bad ≡ None }
        ensures part { result.part ≡ None }
        ensures section { result.body.section ≡ None }
        ensures assignments { result.body.assignments.items ≡ [] }
    {
        Reader {
            bad: None,
            part: None,
            body: Body {
                section: None,
                assignments: Vec::new(alloc),
            },
        }
    }

    /// Takes a whole joined line.
    fn complete(
        &mut self,
        alloc: Global,
        first: u64,
        last: u64,
        text: &str,
    ) -> Result<(), TextFault>
        ensures part { self.new.part ≡ self.old.part }
        ensures ok { OnOk result (Completes self.old self.new (record { first = first; last = last; text = text.now })) }
        ensures fault { IsRefusedBy result (joined_fault self.old.body.section self.old.bad (record { first = first; last = last; text = text.now })) }
    {
        if let Some(bad) = self.bad
            && bad <= last
        {
            return Err(TextFault::Utf8(capped(bad)));
        }
        self.body.take(alloc, first, trimmed(text))
    }

    /// Keeps a line that goes on, of which this stands before the backslash.
    fn hold(&mut self, alloc: Global, number: u64, before: &str) -> Result<(), TextFault>
        ensures ok { OnOk result (Holds self.old self.new (record { first = number; last = number; text = before.now ++ 32 ∷ [] })) }
        ensures fault { IsRefusedBy result None }
    {
        let mut part = match self.part.take() {
            Some(part) => part,
            None => ReadPart {
                first: number,
                last: number,
                text: String::new(alloc),
            },
        };
        part.text.push_str(before)?;
        part.text.push(' ')?;
        part.last = number;
        self.part = Some(part);
        Ok(())
    }

    /// Takes the last line of a joined line.
    fn end(&mut self, alloc: Global, number: u64, line: &str) -> Result<(), TextFault>
        ensures ok { OnOk result (Completes self.old self.new (ended self.old.part number line.now)) }
        ensures part { OnOk result (self.new.part ≡ None) }
        ensures fault { IsRefusedBy result (joined_fault self.old.body.section self.old.bad (ended self.old.part number line.now)) }
    {
        if let Some(mut part) = self.part.take() {
            part.text.push_str(line)?;
            return self.complete(alloc, part.first, number, part.text.as_str());
        }
        self.complete(alloc, number, number, line)
    }

    /// Takes a line that isn't UTF-8.
    fn take_bad(&mut self, number: u64, line: &[u8]) -> Result<(), TextFault>
        ensures ok { OnOk result (Marks self.old self.new number) }
        ensures comment { OnOk result (is_comment line.now ≡ true) }
        ensures fault { IfErr result (λ fault. (is_comment line.now ≡ false) × (fault ≡ utf8_fault (unwrap_or self.old.bad number))) }
    {
        let bad = self.bad.unwrap_or(number);
        self.bad = Some(bad);
        if is_comment(line) {
            Ok(())
        } else {
            Err(TextFault::Utf8(capped(bad)))
        }
    }

    /// Takes the next line, which has no line feed.
    pub fn take(&mut self, alloc: Global, number: u64, line: &[u8]) -> Result<(), TextFault>
        requires { IfSome self.old.bad (λ bad. bad < number) }
        ensures ok { OnOk result (ReadsOn self.old self.new number line.now) }
        ensures fault { (rest : List (List ℕ)) → IsRefusedBy result (fault_left self.old number (line.now ∷ rest)) }
    {
        let Ok(text) = line.to_str() else {
            return self.take_bad(number, line);
        };
        if is_comment(line) {
            return Ok(());
        }
        match before_backslash(text) {
            Some(before) => self.hold(alloc, number, before),
            None => self.end(alloc, number, text),
        }
    }

    /// The assignments, where no line is left.
    pub fn finish(mut self, alloc: Global) -> Result<Vec<Assignment>, TextFault>
        ensures ok { IfOk result (λ all. all.items ≡ assignments_left self 1 []) }
        ensures sound { OnOk result (fault_left self 1 [] ≡ None) }
        ensures fault { IsRefusedBy result (fault_left self 1 []) }
    {
        if let Some(part) = self.part.take() {
            self.complete(alloc, part.first, part.last, part.text.as_str())?;
        }
        let Reader { bad, part: _, body } = self;
        match bad {
            Some(bad) => Err(TextFault::Utf8(capped(bad))),
            None => Ok(body.into_assignments()),
        }
    }
}

/// The assignments of a unit file.
pub fn read(alloc: Global, bytes: &[u8]) -> Result<Vec<Assignment>, TextFault>
    ensures ok { IfOk result (λ all. all.items ≡ assignments bytes.now) }
    ensures sound { OnOk result (text_fault bytes.now ≡ None) }
    ensures fault { IsRefusedBy result (text_fault bytes.now) }
{
    let mut reader = Reader::new(alloc);
    let mut number = 0;
    for line in bytes.lines_with_terminator() {
        number += 1;
        reader.take(alloc, number, without_line_feed(line))?;
    }
    reader.finish(alloc)
}
