//! The reader of scripts.
ghost use Rattle.std.specs.Prelude.{◌≡◌, ℕ, ◌<◌, ◌≤◌, ◌^◌, Bool, true, false, List, [], Option, Some, None, IfOk, IfNone, IfSome, OnOk, IsOk, IsErrOf, is_err, is_some};
ghost use Rattle.std.specs.Io.KnownBytes.{IsAtEnd};
ghost use Rattle.lexer.specs.State.{GoesOn};
ghost use Rattle.ports.specs.Causes.{IsCounted};
ghost use Rattle.versions.specs.declared.version.Version.{Version as AnyVersion};
ghost use Rattle.qscript.specs.declared.command.Command.{Command as AnyCommand};
ghost use Rattle.qscript.specs.Reads.{Ending, ReadsScript};
ghost use Rattle.qscript.specs.Run.{between};
ghost use Rattle.qscript.specs.State.{reading, upcoming, script_in, reading_ahead, Heads, Answers};

use crate::command::Command;
use crate::lines::{command, header};
use lexer::{Comments, Lexer};
use ports::Desk;
use reading::ReadRefusal;
use std::alloc::{AllocError, Global};
use std::marker::Model;
use versions::Version;

/// Reads the commands of a script from a desk, one at a time. Beside the lexer it keeps, while it reads a clause, the
/// numbers of this.
#[derive(Drop)]
pub struct ScriptReader {
    alloc: Global,
    lexer: Lexer,
    version: Option<Version>,
    failed: bool,
}

impl Model for ScriptReader {
    ghost use Rattle.std.specs.Prelude.{◌≡◌, false};
    ghost use Rattle.lexer.specs.declared.token.Comments.TheVariants.{Script};
    ghost use Rattle.qscript.specs.State.{State};

    ghost Value = { State };

    ghost view = { λ r. record {
      lexer = r.lexer;
      version = r.version;
      failed = r.failed;
    } };

    ghost invariant = { λ r. (r.failed ≡ false → r.lexer.failed ≡ false) × (r.lexer.comments ≡ Script) };
}

impl ScriptReader {
    /// A reader in front of a script, with the buffer of its lexer.
    pub fn new(alloc: Global) -> Result<Self, AllocError>
        // The version, the commands and the ending that are to come are those of the whole text.
        ensures script { IfOk result (λ r. (text : List ℕ) (version : Option AnyVersion) (cs : List AnyCommand)
            (e : Ending) → ReadsScript text version cs e →
            reading r (Some text) ≡ Some (record { version = version; script = (cs, e) })) }
        ensures fresh { IfOk result (λ r. (r.version ≡ None) × (r.failed ≡ false)) }
    {
        let lexer = Lexer::new(alloc, Comments::Script)?;
        Ok(Self {
            alloc,
            lexer,
            version: None,
            failed: false,
        })
    }

    /// Whether a call of `read_header` or of `next_command` was refused. Neither is called again then.
    pub fn has_failed(&self) -> bool
        ensures { result ≡ self.now.failed }
    {
        self.failed
    }

    /// The version that the header names. It is called at most once, in front of the script; where it wasn't, the first
    /// call of `next_command` reads the header.
    ///
    /// It looks at nothing behind the header's line, and takes no memory.
    ///
    /// # Errors
    /// 30 where the first line with a word is no header of version 1, 2 or 3, or no word comes; 7 a byte of a word that
    /// is none of 33 to 126, 8 a number whose magnitude is above 2^63 - 1; or the limit on bytes. `ReadFault` comes
    /// only where the desk failed in this call. After any error the reader has failed, and isn't called again.
    pub fn read_header<D: Desk>(&mut self, desk: &mut D) -> Result<Version, ReadRefusal>
        requires front { self.old.version ≡ None }
        requires ready { self.old.failed ≡ false }
        // Where the desk tells its bytes, the version is that of what is to come, and the commands and the ending that
        // are to come stay; or the refusal is all that is to come, and no version is named.
        ensures script { Heads result (reading self.old (D.left desk.old))
            (λ _. upcoming self.new (D.left desk.new)) }
        ensures memory { ¬ IsErrOf result ReadRefusal.NoMemory }
        ensures named { IfOk result (λ version. self.new.version ≡ Some version) }
        // The header leaves fewer bytes that may be read.
        ensures fewer { OnOk result (self.new.lexer.room < self.old.lexer.room) }
        // A desk that told what it has left goes on telling.
        ensures telling { OnOk result (IfSome (D.left desk.old) (λ _. is_some (D.left desk.new) ≡ true)) }
        // It gives up only where the desk failed, so never where it flows.
        ensures cause { IsCounted (IsErrOf result ReadRefusal.ReadFault) (IsOk result) (D.faults desk.old)
            (D.faults desk.new) }
        ensures flows { D.flows desk.old → ¬ IsErrOf result ReadRefusal.ReadFault × D.flows desk.new }
        ensures content { (n : List ℕ) → D.content desk.new n ≡ D.content desk.old n }
        ensures stays { (n : List ℕ) → D.steady desk.old n → D.steady desk.new n }
        // It reads only where the header's line doesn't end among the bytes that were read.
        ensures reads { GoesOn self.old.lexer self.new.lexer desk.old desk.new }
        ensures failed { self.new.failed ≡ is_err result }
    {
        let version = header(self.alloc, &mut self.lexer, desk);
        self.failed = version.is_err();
        self.version = version.ok();
        version
    }

    /// The next command of the script. None is the end of a script without a malformed line. A further call reads again;
    /// it answers none where the desk tells its bytes. The first call reads the header, where `read_header` wasn't
    /// called.
    ///
    /// A command is answered when byte 10 behind its line, or the end of the text, has been read.
    ///
    /// # Errors
    /// The commands of the lines before the first malformed one are answered, then its refusal: 7 a byte of a word that
    /// is none of 33 to 126, 8 a number whose magnitude is above 2^63 - 1, 30 no header, 31 no command of the version,
    /// 32 a command whose words haven't its form; or the limit on bytes. `ReadFault` comes only where the desk failed
    /// in this call. After any error the reader has failed, and isn't called again.
    pub fn next_command<D: Desk>(&mut self, desk: &mut D) -> Result<Option<Command>, ReadRefusal>
        requires { self.old.failed ≡ false }
        // The commands to come and the ending, where the desk tells its bytes, are this one and then those to come
        // after it.
        ensures script { Answers result (upcoming self.old (D.left desk.old)) (upcoming self.new (D.left desk.new)) }
        // Each command leaves fewer bytes that may be read.
        ensures fewer { IfOk result (λ c. IfSome c (λ _. self.new.lexer.room < self.old.lexer.room)) }
        // At the end the desk has nothing left.
        ensures end { IfOk result (λ c. IfNone c (IsAtEnd (D.left desk.new))) }
        // A desk that told what it has left goes on telling.
        ensures telling { OnOk result (IfSome (D.left desk.old) (λ _. is_some (D.left desk.new) ≡ true)) }
        // It gives up only where the desk failed, so never where it flows.
        ensures cause { IsCounted (IsErrOf result ReadRefusal.ReadFault) (IsOk result) (D.faults desk.old)
            (D.faults desk.new) }
        ensures flows { D.flows desk.old → ¬ IsErrOf result ReadRefusal.ReadFault × D.flows desk.new }
        ensures content { (n : List ℕ) → D.content desk.new n ≡ D.content desk.old n }
        ensures stays { (n : List ℕ) → D.steady desk.old n → D.steady desk.new n }
        // It stops in the command's line, in front of this line's end, and reads only where this end isn't among the
        // bytes that were read.
        ensures reads { GoesOn self.old.lexer self.new.lexer desk.old desk.new }
        ensures failed { self.new.failed ≡ is_err result }
    {
        let version = match self.version {
            Some(version) => version,
            None => self.read_header(desk)?,
        };
        let answer = command(self.alloc, &mut self.lexer, desk, version);
        self.failed = answer.is_err();
        answer
    }
}
