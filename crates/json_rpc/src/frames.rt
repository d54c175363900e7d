ghost use Rattle.std.specs.Prelude.{◌≡◌, ◌≢◌, IsNone, IfNone, ◌≤◌, ◌<◌, ◌+◌, ◌^◌, [], None, Some, drop, length, IfOk, IfSome, MatchResult, MatchOption, IsErrOf, OnOk, vec_len};
ghost use Rattle.outside.specs.Causes.{Rose};
ghost use Rattle.json_rpc.specs.Prefixes.{IsPartOf};
ghost use Rattle.json_rpc.specs.Streams.{IsLasting, TakesFrame, MeetsFault, Fills, FillFails, Gives, Ends, Fails, IsAsFar, budget, by_length, ended, next_of, partial};

use crate::fault::FrameFault;
use crate::header::{Head, Prefix, Reading, Scan};
use crate::held::Held;
use outside::Source;
use std::alloc::{AllocError, Global};
use std::marker::Model;

const LONGEST: u64 = 16_777_216;

const BUDGET: u64 = 1_099_511_627_776;

/// The most bytes that are asked for at a time.
const PIECE: usize = 65_536;

/// The frames of a source, one by one. It holds the bytes that it took and hasn't given yet, so it doesn't
/// matter in which pieces the source gives them, and no byte of a header part is read twice. Contracts see
/// how many bytes were given, the bytes held, and the fault that ended the stream.
#[derive(Drop)]
pub struct Frames {
    place: u64,
    held: Held,
    fault: Option<FrameFault>,
    prefix: Prefix,
    /// What a read writes into, made at the first one.
    piece: Vec<u8>,
}

impl Model for Frames {
    ghost use Rattle.std.specs.Prelude.{◌≤◌, ◌+◌, length};
    ghost use Rattle.json_rpc.specs.Prefixes.{IsPrefixOf};
    ghost use Rattle.json_rpc.specs.Streams.{IsLasting, Progress, budget};

    ghost Value = { Progress };

    ghost view = { λ f. record { place = f.place; held = f.held; fault = f.fault } };

    ghost invariant = { λ f. (f.place + length f.held ≤ budget) × IsLasting f.fault × IsPrefixOf f.held f.prefix };
}

/// Makes room for one read.
fn make_piece(alloc: Global, piece: &mut Vec<u8>) -> Result<(), AllocError>
    ensures { OnOk result (0 < vec_len piece.new) }
{
    if piece.is_empty() {
        *piece = vec![in alloc; 0u8; PIECE]?;
    }
    Ok(())
}

impl Frames {
    /// Nothing is taken yet.
    #[tactic(auto, using(crate::proofs::Scans::prefixes))]
    pub fn new(alloc: Global) -> Frames
        ensures fresh { result ≡ record { place = 0; held = []; fault = None } }
    {
        Frames {
            place: 0,
            held: Held::new(alloc),
            fault: None,
            prefix: Prefix::Part(Scan::start()),
            piece: Vec::new(alloc),
        }
    }

    /// Ends the stream by a fault.
    fn end_with(&mut self, fault: FrameFault) -> FrameFault
        requires { IsLasting (Some fault) }
        ensures result { result ≡ fault }
        ensures ended { self.new ≡ ended self.old fault }
        ensures bytes { IsAsFar self.old self.new }
    {
        self.fault = Some(fault);
        fault
    }

    /// The body after a header part of `from` bytes, where it is held.
    #[tactic(auto, using(crate::proofs::Scans::prefixes), unfolding(crate::specs::Streams::by_length))]
    fn take_body(
        &mut self,
        alloc: Global,
        from: usize,
        head: &Head,
    ) -> Result<Option<Vec<u8>>, FrameFault>
        requires fault { self.old.fault ≡ None }
        requires from { from ≤ length self.old.held }
        requires reading { next_of self.old.place self.old.held ≡ by_length self.old.place self.old.held from head.now }
        ensures frame { MatchResult result
            (λ found. MatchOption found ((next_of self.old.place self.old.held ≡ partial) × (self.new ≡ self.old)) (λ body. TakesFrame self.old self.new body.items))
            (λ e. MeetsFault self.old self.new e) }
        ensures bytes { IsAsFar self.old self.new }
    {
        if !head.told {
            let at = self.place + from as u64;
            return Err(self.end_with(FrameFault::NoLength(at)));
        }
        if head.length > LONGEST {
            return Err(self.end_with(FrameFault::TooLong(head.length)));
        }
        let length = head.length as usize;
        if length > self.held.len() - from {
            return Ok(None);
        }
        let end = from + length;
        let body = self.held.take(alloc, from, end)?;
        self.place += end as u64;
        self.prefix = Prefix::Part(Scan::start());
        Ok(Some(body))
    }

    /// The frame at the front of what is held.
    #[tactic(auto, using(crate::proofs::Scans::prefixes), unfolding(crate::specs::Streams::by_reading))]
    fn take_frame(&mut self, alloc: Global) -> Result<Option<Vec<u8>>, FrameFault>
        requires { self.old.fault ≡ None }
        ensures frame { MatchResult result
            (λ found. MatchOption found ((next_of self.old.place self.old.held ≡ partial) × (self.new ≡ self.old)) (λ body. TakesFrame self.old self.new body.items))
            (λ e. MeetsFault self.old self.new e) }
        ensures bytes { IsAsFar self.old self.new }
    {
        match self.prefix {
            Prefix::Body(from, head) => self.take_body(alloc, from, &head),
            Prefix::Part(scan) => self.read_part(alloc, scan),
        }
    }

    /// Reads on in a header part.
    #[tactic(auto, using(crate::proofs::Scans::prefixes), unfolding(crate::specs::Streams::by_reading))]
    fn read_part(&mut self, alloc: Global, scan: Scan) -> Result<Option<Vec<u8>>, FrameFault>
        requires fault { self.old.fault ≡ None }
        requires part { IsPartOf self.old.held scan }
        ensures frame { MatchResult result
            (λ found. MatchOption found ((next_of self.old.place self.old.held ≡ partial) × (self.new ≡ self.old)) (λ body. TakesFrame self.old self.new body.items))
            (λ e. MeetsFault self.old self.new e) }
        ensures bytes { IsAsFar self.old self.new }
    {
        let mut scan = scan;
        match scan.read_on(self.held.as_slice()) {
            Reading::More => {
                self.prefix = Prefix::Part(scan);
                Ok(None)
            }
            Reading::Whole(from, head) => {
                self.prefix = Prefix::Body(from, head);
                self.take_body(alloc, from, &head)
            }
            Reading::Bad(n) => {
                let at = self.place + n as u64;
                Err(self.end_with(FrameFault::Header(at)))
            }
        }
    }

    /// Takes bytes from the source; false at its end.
    #[tactic(auto, using(crate::proofs::Scans::prefixes))]
    fn fill<S: Source>(&mut self, alloc: Global, source: &mut S) -> Result<bool, FrameFault>
        requires { self.old.fault ≡ None }
        ensures bytes { MatchResult result
            (λ more. Fills self.old self.new (S.left source.old) (S.left source.new) more)
            (λ e. FillFails self.old self.new (S.left source.old) (S.left source.new) e) }
        ensures bound { self.new.place + length self.new.held ≤ budget }
        ensures later { S.faults source.old ≤ S.faults source.new }
        ensures cause { IsErrOf result FrameFault.ReadFault → Rose (S.faults source.old) (S.faults source.new) }
    {
        let left = BUDGET - (self.place + self.held.len() as u64);
        if left == 0 {
            return Err(self.end_with(FrameFault::Budget));
        }
        make_piece(alloc, &mut self.piece)?;
        let room = left.min(self.piece.len() as u64) as usize;
        let count = self.held.fill(source, self.piece.as_mut_slice(), room)?;
        Ok(count != 0)
    }

    /// What the end of the input means, where no whole frame is held.
    fn at_end(&mut self) -> Result<Option<Vec<u8>>, FrameFault>
        ensures end { MatchResult result
            (λ found. IfNone found ((self.old.held ≡ []) × (self.new ≡ self.old)) × IsNone found)
            (λ e. (self.old.held ≢ []) × (e ≡ FrameFault.Cut (self.old.place + length self.old.held)) × (self.new ≡ ended self.old e)) }
        ensures bytes { IsAsFar self.old self.new }
    {
        if self.held.is_empty() {
            return Ok(None);
        }
        let at = self.place + self.held.len() as u64;
        Err(self.end_with(FrameFault::Cut(at)))
    }

    /// The next body, where nothing has ended the frames yet.
    fn fresh<S: Source>(
        &mut self,
        alloc: Global,
        source: &mut S,
    ) -> Result<Option<Vec<u8>>, FrameFault>
        requires fault { self.old.fault ≡ None }
        requires bound { self.old.place + length self.old.held ≤ budget }
        ensures frame { MatchResult result
            (λ found. MatchOption found (Ends self.old self.new (S.left source.old) (S.left source.new)) (λ body. Gives self.old self.new (S.left source.old) (S.left source.new) body.items))
            (λ e. Fails self.old self.new (S.left source.old) (S.left source.new) e) }
        ensures bound { self.new.place + length self.new.held ≤ budget }
        ensures later { S.faults source.old ≤ S.faults source.new }
        ensures cause { IsErrOf result FrameFault.ReadFault → Rose (S.faults source.old) (S.faults source.new) }
    {
        loop {
            if let Some(body) = self.take_frame(alloc)? {
                return Ok(Some(body));
            }
            if !self.fill(alloc, source)? {
                return self.at_end();
            }
        }
    }

    /// The next body, of at most 16 MiB; None where the input ended between two frames before the
    /// budget of 2^40 bytes was used up. After a fault other than `ReadFault` and `OutOfMemory` it answers
    /// that fault again; after those two it goes on with every byte that it took.
    #[tactic(auto, using(crate::proofs::Lasting::lasting))]
    pub fn next<S: Source>(
        &mut self,
        alloc: Global,
        source: &mut S,
    ) -> Result<Option<Vec<u8>>, FrameFault>
        ensures frame { self.old.fault ≡ None → MatchResult result
            (λ found. MatchOption found (Ends self.old self.new (S.left source.old) (S.left source.new)) (λ body. Gives self.old self.new (S.left source.old) (S.left source.new) body.items))
            (λ e. Fails self.old self.new (S.left source.old) (S.left source.new) e) }
        ensures again { IfSome self.old.fault (λ e. IsErrOf result e × (self.new ≡ self.old) × (source.new ≡ source.old)) }
        ensures later { S.faults source.old ≤ S.faults source.new }
        ensures bound { self.new.place + length self.new.held ≤ budget }
        ensures cause { IsErrOf result FrameFault.ReadFault → Rose (S.faults source.old) (S.faults source.new) }
        ensures kept { IsLasting self.old.fault }
    {
        if let Some(fault) = self.fault {
            return Err(fault);
        }
        self.fresh(alloc, source)
    }
}
