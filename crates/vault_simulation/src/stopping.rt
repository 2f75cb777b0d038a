//! The machine crashes, and the vault is opened again.

use crate::run::Run;
use crate::spoiling::spoil;
use crate::tearing::tear;
use group_commit::{File, OpenError, Vault};
use test_oracle::{Files, Left, Met, are_alike};
use vault_checkout::Book;
use vault_device::MemDevice;

fn is_book(read: &Result<Book, OpenError>, book: &Book) -> bool {
    match read {
        Ok(other) => are_alike(other, book),
        Err(_) => false,
    }
}

impl Run {
    // What is left of each file: mostly what a crash leaves, now and then what reads gave, without a crash.
    fn left_of_both(&mut self) -> (Left, Left) {
        if self.dice.one_in(12) {
            return (Left::Shown, Left::Shown);
        }
        let (one, other) = (self.dice.pick(), self.dice.pick());
        (Left::Crashed(one), Left::Crashed(other))
    }

    // Now and then puts any bytes where a crash may have left any. None if out of memory, which is then the difference.
    fn torn(&mut self, files: Files) -> Option<Files> {
        if !self.dice.one_in(4) {
            return Some(files);
        }
        self.judge.verdict.counts.up(Met::Torn);
        let mut files = files;
        let mut bytes = files.bytes(self.judge.alloc);
        drop(files);
        tear(&mut self.dice, &mut self.judge.world, &mut bytes);
        let files = Files::with(
            self.judge.alloc,
            bytes.first.as_slice(),
            bytes.second.as_slice(),
        );
        drop(bytes);
        self.judge
            .verdict
            .sure(files.is_some(), "torn files can't be made");
        files
    }

    // Ends the life, and judges what is found after it.
    fn stopped(&mut self, files: &mut Files, first: Left, second: Left) {
        self.judge.stop(files, first, second);
        self.speakers.restart();
        self.judge.inspect(files);
        if self.dice.one_in(6) {
            let alloc = self.judge.alloc;
            spoil(&mut self.judge.verdict, &mut self.dice, alloc, files);
        }
    }

    // Now and then opens the store alone, which must give the book that is kept. The files come back.
    fn read(&mut self, files: Files) -> Files {
        if !self.dice.one_in(4) {
            return files;
        }
        let (read, files) = files.read(self.judge.alloc);
        let same = is_book(&read, self.judge.history.book());
        drop(read);
        self.judge
            .verdict
            .sure(same, "opening gave another vault than is reported");
        files
    }

    // Now and then makes a device call of the opening, or a later one, fail.
    fn arm(&mut self, files: &mut Files) {
        if !self.dice.one_in(self.mood.fault) {
            return;
        }
        let which = if self.dice.one_in(2) {
            File::First
        } else {
            File::Second
        };
        let opening = self.judge.world.opening_calls(which);
        let within = self.dice.place(opening as usize) as u64;
        let behind = opening.saturating_add(u64::from(self.dice.below(12)));
        let call = if self.dice.one_in(4) { within } else { behind };
        files.fail_at(which, call.saturating_add(1));
        self.judge.armed = Some(which);
    }

    /// Opens the vault of the present life. This must not be refused.
    pub(crate) fn must_open(&mut self, files: Files) -> Option<Vault<MemDevice>> {
        match files.open(self.judge.alloc, self.judge.world.life) {
            Ok(vault) => Some(vault),
            Err((_, files)) => {
                drop(files);
                self.judge.verdict.sure(false, "opening was refused");
                None
            }
        }
    }

    // Opening failed. Only the device call that was made to fail may be the reason. The machine crashes once more, and then opening must
    // not be refused.
    fn opened_again(&mut self, why: OpenError, files: Files) -> Option<Vault<MemDevice>> {
        let mut files = files;
        let told_to = self.judge.armed.is_some() && why == OpenError::Device;
        self.judge.armed = None;
        self.judge.verdict.counts.up(Met::OpenFault);
        self.judge.verdict.sure(told_to, "opening was refused");
        let (one, other) = (self.dice.pick(), self.dice.pick());
        files.crash(Left::Crashed(one), Left::Crashed(other));
        self.must_open(files)
    }

    // Opens the vault of the present life.
    fn opened(&mut self, files: Files) -> Option<Vault<MemDevice>> {
        match files.open(self.judge.alloc, self.judge.world.life) {
            Ok(vault) => Some(vault),
            Err((why, files)) => self.opened_again(why, files),
        }
    }

    // Opens the files after a crash, with what else may happen to them.
    fn opened_behind_crash(&mut self, files: Files) -> Option<Vault<MemDevice>> {
        let files = self.torn(files)?;
        let mut files = self.read(files);
        self.arm(&mut files);
        self.opened(files)
    }

    /// Ends the life, mostly by a crash, and opens the vault in another one. None if a difference is found.
    pub(crate) fn reopened(&mut self, files: Files) -> Option<Vault<MemDevice>> {
        let mut files = files;
        let (first, second) = self.left_of_both();
        self.stopped(&mut files, first, second);
        if !self.judge.verdict.is_sound() {
            drop(files);
            return None;
        }
        if first == Left::Shown {
            return self.opened(files);
        }
        self.opened_behind_crash(files)
    }
}
