// Files that are opened by name and read one after another.
ghost use Rattle.std.specs.Prelude.{◌≡◌, ◌≤◌, ℕ, List, length, IfOk, OnOk, OnErr, Option, true, None, Some, option_map, is_some};
ghost use Rattle.std.specs.Io.KnownBytes.{Keeps, ReadConsumes};
ghost use Rattle.std.specs.Option.{option_and_then};
ghost use Rattle.glacier_base.specs.ToldFiles.{OpenCall, ReadCall};
ghost use Rattle.glacier_base.specs.declared.files.TheConstants.{MOST_READ};

use crate::{Failed, FaultCount, Files, MOST_READ, read_some};
use std::io;
use std::io::Read;

/// Opens files, and standard input, for reading.
pub trait Opener {
    type Content: Read + Drop;

    /// The bytes of each name, and of standard input at no name, where they are known.
    ghost known: { Self → Option (List ℕ) → Option (List ℕ) };

    /// Opens a file at its first byte.
    fn open_file(&self, name: &str) -> io::Result<Self::Content>
        ensures { IfOk result (λ content. Keeps (known self.now (Some name.now))
            (Self.Content.remaining content)) };

    /// Standard input.
    fn standard_input(&self) -> Self::Content
        ensures { Keeps (known self.now None) (Self.Content.remaining result) };
}

/// Files that an opener opens. Of their bytes it tells what the opener's contents tell.
#[derive(Drop)]
pub struct OpenedFiles<O: Opener + Drop> {
    pub opener: O,
    pub content: Option<O::Content>,
    pub given: u64,
    pub faults: FaultCount,
    pub ghost within: { given ≤ MOST_READ },
}

/// Reads what is there, once, and at most so many bytes. Where that is none but there is room, it
/// reads nothing and fails.
#[tactic(auto, using(crate::proofs::StreamLemmas::reads_front))]
fn read_most<R: Read>(reader: &mut R, into: &mut [u8], most: u64) -> Result<usize, Failed>
    ensures bound { IfOk result (λ count. count ≤ length into.old) }
    ensures most { IfOk result (λ count. count ≤ most) }
    ensures bytes { ReadConsumes (R.remaining reader.old) (R.remaining reader.new)
        result into.new }
{
    if most == 0 && !into.is_empty() {
        return Err(Failed);
    }
    let room = (into.len() as u64).min(most) as usize;
    read_some(reader, &mut into[..room])
}

impl<O: Opener + Drop> OpenedFiles<O> {
    /// The content of a name, and standard input at no name.
    fn content_of(&self, name: Option<&str>) -> Result<O::Content, Failed>
        ensures { IfOk result (λ content. Keeps
            (O.known self.now.opener (option_map (λ text. text.now) name.entry))
            (O.Content.remaining content)) }
    {
        match name {
            Some(name) => match self.opener.open_file(name) {
                Ok(content) => Ok(content),
                Err(_) => Err(Failed),
            },
            None => Ok(self.opener.standard_input()),
        }
    }
}

impl<O: Opener + Drop> Files for OpenedFiles<O> {
    ghost use Rattle.std.specs.Prelude.{false, [], is_some};

    ghost tells = { false };

    ghost told = { λ files. record {
      content = λ _. None;
      rest = [];
      names = [];
      is_open = is_some files.content;
      given = files.given;
      faults = files.faults;
      plan = [];
      calls = 0;
    } };

    fn open_read(&mut self, name: Option<&str>) -> Result<(), Failed>
        ensures opens { OnOk result (Keeps
            (O.known self.old.opener (option_map (λ text. text.now) name.entry))
            (option_and_then O.Content.remaining self.new.content)) }
        ensures kept { OnErr result (self.new.content ≡ self.old.content) }
        ensures opener { self.new.opener ≡ self.old.opener }
        ensures call { OpenCall (⟦<OpenedFiles<O> as Files>⟧.told self.old)
            (⟦<OpenedFiles<O> as Files>⟧.told self.new) result }
    {
        let content = self.content_of(name);
        let content = self.faults.counted(content)?;
        self.content = Some(content);
        self.given = 0;
        Ok(())
    }

    fn read(&mut self, into: &mut [u8]) -> Result<usize, Failed>
        requires { is_some self.old.content ≡ true }
        ensures bound { IfOk result (λ count. count ≤ length into.old) }
        ensures reads { ReadConsumes (option_and_then O.Content.remaining self.old.content)
            (option_and_then O.Content.remaining self.new.content) result into.new }
        ensures opener { self.new.opener ≡ self.old.opener }
        ensures call { ReadCall (⟦<OpenedFiles<O> as Files>⟧.told self.old)
            (⟦<OpenedFiles<O> as Files>⟧.told self.new) result }
    {
        let most = MOST_READ - self.given;
        let answer = match &mut self.content {
            Some(content) => read_most(content, into, most),
            None => unreachable!(),
        };
        let count = self.faults.counted(answer)?;
        self.given += count as u64;
        Ok(count)
    }
}
