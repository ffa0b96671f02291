//! One client: the lines of its file are answered one after another, as they come.

ghost use Rattle.std.specs.Prelude.{◌≡◌, ◌<◌, ℕ, List, [], None, IfErr, IfOk, OnOk};
ghost use Rattle.pf_farm_state.specs.Clients.{empty_client};
ghost use Rattle.pf_protocol.specs.Clients.{client_line_at};
ghost use Rattle.pf_wire.specs.Whole.{whole_text};
ghost use Rattle.pf_clients.specs.Faults.{ended_by};
ghost use Rattle.pf_clients.specs.Lines.{AnswersFront, EndsAt};
ghost use Rattle.pf_clients.specs.Served.{AnswersClient, IsNew, IsServed};
ghost use Rattle.pf_clients.specs.Replies.{Takes, TakesBeginning};

use crate::end::FileEnd;
use crate::line::{answer_front, refusal};
use crate::replies::{add, reply};
use crate::streams::{ClientStreams, Source};
use crate::watch::Watch;
use pf_errors::{NoMemory, OrNoMemory};
use pf_farm::{ClientSeat, Floor};
use pf_farm_accounts::FarmNames;
use pf_streams::{Counted, StreamFault};
use pf_wire::{Input, RefusedLine, WrittenAnswer};
use std::alloc::Global;
use std::io::Write;
use std::marker::Brand;
use std::mem::replace;
use std::sync::Wait;
use std::sync::ledger::{Blank, Ledger};

/// The most bytes that are read in one call.
const PIECE: usize = 4_096;

/// How a file ended that can't be read, or for which memory ran out.
fn stopped(stop: OrNoMemory<StreamFault>) -> FileEnd
    ensures { result ≡ ended_by stop }
{
    match stop {
        OrNoMemory::Fault(StreamFault::Read(error) | StreamFault::Write(error)) => {
            FileEnd::Unread(error)
        }
        OrNoMemory::NoMemory => FileEnd::NoMemory,
    }
}

/// A client: its seat, the source of its streams until they are opened, the writer of its replies if it has one, and
/// what is kept of its replies if it has none.
#[derive(Drop)]
pub(crate) struct Client<N: FarmNames, S, W> {
    pub seat: ClientSeat<N>,
    pub source: Option<S>,
    pub replies: Option<W>,
    pub reported: Vec<WrittenAnswer>,
    pub ended: FileEnd,
}

impl<N: FarmNames, W: Write + Drop, S: Source<Replies = W> + Drop> Client<N, S, W> {
    /// Opens its streams, and answers the lines of its file as they come, at most 64 MiB of it, up to one that is no
    /// command.
    pub fn work<T: Wait, G: Watch>(&mut self, alloc: Global, rt: &T, floor: &Floor<N>, watch: &G)
        requires { IsNew self.old.seat self.old.replies self.old.reported.items }
        ensures { IsServed S.gives S.lacks S.File.remaining W.contents self.old.source self.new.replies
            self.old.seat.project self.new.seat self.new.reported.items self.new.ended }
    {
        self.ended = self.answer_source(alloc, rt, floor, watch);
        watch.ended(self.seat.project(), &self.ended);
    }

    /// Opens its streams, if it has a source, and answers the lines of its file.
    fn answer_source<T: Wait, G: Watch>(
        &mut self,
        alloc: Global,
        rt: &T,
        floor: &Floor<N>,
        watch: &G,
    ) -> FileEnd
        requires { IsNew self.old.seat self.old.replies self.old.reported.items }
        ensures { IsServed S.gives S.lacks S.File.remaining W.contents self.old.source self.new.replies
            self.old.seat.project self.new.seat self.new.reported.items result }
    {
        let Some(source) = self.source.take() else {
            return FileEnd::Answered;
        };
        match source.open() {
            Ok(ClientStreams { file, replies }) => {
                // It has no writer yet, so none is dropped here.
                let _none = replace(&mut self.replies, replies);
                self.answer_lines::<Brand, T, G>(alloc, rt, floor, watch, file, Blank::new(1))
            }
            Err(StreamFault::Read(error)) => FileEnd::Unread(error),
            Err(StreamFault::Write(error)) => FileEnd::Unwritten(error),
        }
    }

    /// Answers the lines of a file, each before more is read than a piece.
    fn answer_lines<L: Ledger, T: Wait, G: Watch>(
        &mut self,
        alloc: Global,
        rt: &T,
        floor: &Floor<N>,
        watch: &G,
        file: S::File,
        reads: Blank,
    ) -> FileEnd
        requires reads { reads.name ≡ L.name }
        requires read_parts { reads.parts ≡ L.parts }
        requires some_reads { 0 < reads.parts }
        requires new { (self.old.seat ≡ empty_client self.old.seat.project) × (self.old.reported.items ≡ []) }
        ensures { AnswersClient S.File.remaining W.contents file self.old.replies self.new.replies
            self.old.seat.project self.new.seat self.new.reported.items result }
    {
        let mut reader = Counted::<S::File, L>::new(file, reads);
        let mut piece = [0u8; PIECE];
        let mut input = Input::new(alloc);
        let mut number: u64 = 1;
        let mut is_over = false;
        'lines: loop {
            if input.is_due(is_over) {
                match self.answer_next(alloc, rt, floor, watch, number, &input.bytes) {
                    Ok(rest) => input.keep(rest),
                    Err(end) => return end,
                }
                number += 1;
            } else if is_over {
                return FileEnd::Answered;
            } else {
                match input.take_piece(&mut reader, &mut piece) {
                    Ok(ends) => is_over = ends,
                    Err(stop) => return stopped(stop),
                }
            }
        }
    }

    /// Answers the line of this number, which is first; gives what follows it, or how the file ends there.
    fn answer_next<T: Wait, G: Watch>(
        &mut self,
        alloc: Global,
        rt: &T,
        floor: &Floor<N>,
        watch: &G,
        number: u64,
        bytes: &[u8],
    ) -> Result<Vec<u8>, FileEnd>
        requires { ¬ (bytes.now ≡ []) }
        ensures next { IfOk result (λ rest. (text : List ℕ)
            × AnswersFront bytes.now rest.items self.old.seat self.new.seat text
            × Takes W.contents self.old.replies self.new.replies
            self.old.reported.items self.new.reported.items text) }
        ensures end { IfErr result (λ end. (text : List ℕ)
            × EndsAt end number bytes.now self.old.seat self.new.seat text
            × Takes W.contents self.old.replies self.new.replies
            self.old.reported.items self.new.reported.items text) }
    {
        match answer_front(alloc, rt, floor, watch, &mut self.seat, bytes) {
            Ok(Some(line)) => match self.take(line.reported) {
                Ok(()) => Ok(line.rest),
                Err(end) => Err(end),
            },
            Ok(None) => Err(self.refuse(alloc, number, bytes)),
            Err(NoMemory) => Err(FileEnd::NoMemory),
        }
    }

    /// Answers that the line of this number, which is first, is no command; how the file ends there.
    fn refuse(&mut self, alloc: Global, number: u64, bytes: &[u8]) -> FileEnd
        requires some { ¬ (bytes.now ≡ []) }
        requires none { client_line_at self.old.seat.project bytes.now ≡ None }
        ensures { (text : List ℕ)
            × EndsAt result number bytes.now self.old.seat self.new.seat text
            × Takes W.contents self.old.replies self.new.replies
            self.old.reported.items self.new.reported.items text }
    {
        let reported = match refusal(alloc, number) {
            Ok(reported) => reported,
            Err(NoMemory) => return FileEnd::NoMemory,
        };
        match self.take(reported) {
            Ok(()) => FileEnd::NoCommand(RefusedLine::of(alloc, number, bytes)),
            Err(end) => end,
        }
    }

    /// Writes an answer, or keeps it where there is no writer; how the file ends, if neither can be done.
    fn take(&mut self, reported: WrittenAnswer) -> Result<(), FileEnd>
        ensures seat { self.new.seat ≡ self.old.seat }
        ensures taken { OnOk result (Takes W.contents self.old.replies self.new.replies
            self.old.reported.items self.new.reported.items (whole_text reported)) }
        ensures beginning { IfErr result (λ end. TakesBeginning W.contents end self.old.replies self.new.replies
            self.old.reported.items self.new.reported.items (whole_text reported)) }
    {
        match &mut self.replies {
            Some(writer) => reply(writer, reported),
            None => match add(&mut self.reported, reported) {
                Ok(()) => Ok(()),
                Err(NoMemory) => Err(FileEnd::NoMemory),
            },
        }
    }
}
