//! What a reader keeps of a capture that comes in pieces.
ghost use Rattle.std.specs.Prelude.{◌≡◌, ◌+◌, ◌-◌, ◌*◌, ◌<◌, ◌≤◌, ◌++◌, ℕ, false, List, IfOk, OnOk, OnErr, IsOk, IsTrue, length, take, drop};
ghost use Rattle.capture_file.specs.Captures.{is_whole, records_in, rest_in};
ghost use Rattle.capture_file.specs.Reading.{IsReadTo, failed, is_one_record, new_reading, octets_lacking, read_on, walked};

use crate::entries::{Records, shorten};
use crate::form::{
    Form, HEADER_OCTETS, RECORD_OCTETS, captured, header, is_long, is_whole, record_at,
};
use crate::{CaptureFault, FrameOctets, OutOfMemory};
use std::alloc::Global;

/// How far a capture has come.
#[derive(Clone, Copy)]
pub enum Stage {
    /// The header isn't whole yet.
    Header,
    /// Records are read.
    Entries(Form),
    /// A fault stands that no further octets can mend.
    Faulty(CaptureFault),
}

/// What is kept of the octets so far.
#[derive(Drop)]
pub struct Reading {
    pub stage: Stage,
    /// The whole records.
    pub records: Records,
    /// The octets after them, or all of them before the header is whole.
    pub rest: FrameOctets,
}

/// Puts the whole records that stand in front at the end, and answers what is left after them. On refusal
/// some of them may be there.
#[tactic(auto, using(crate::proofs::Walk::records_step, crate::proofs::Walk::rest_step, crate::proofs::Walk::records_stop, crate::proofs::Walk::rest_stop))]
fn take_records<'a>(
    alloc: Global,
    form: Form,
    records: &mut Records,
    octets: &'a [u8],
) -> Result<&'a [u8], OutOfMemory>
    ensures records { OnOk result (records.new ≡ records.old ++ records_in form 0 octets.now) }
    ensures rest { IfOk result (λ rest. rest.now ≡ rest_in form 0 octets.now) }
    ensures room { IfOk result (λ rest. 16 * length records.new + length rest.now ≤ 16 * length records.old + length octets.now) }
    ensures few { IfOk result (λ rest. is_whole form rest.now ≡ false) }
    ensures err { OnErr result (take (length records.old) records.new ≡ records.old) }
{
    let mut rest = octets;
    'whole: while is_whole(form, rest) {
        records.push(record_at(alloc, form, rest)?)?;
        (_, rest) = rest.split_at(RECORD_OCTETS + captured(form, rest));
    }
    Ok(rest)
}

/// Goes on with the records, and answers how far the capture has come and how many octets are left.
#[tactic(auto, using(crate::proofs::Walk::rest_is_short, crate::proofs::Walk::rest_is_last), unfolding(crate::specs::Reading::walked))]
fn read_entries(
    alloc: Global,
    form: Form,
    records: &mut Records,
    octets: &[u8],
) -> Result<(Stage, usize), OutOfMemory>
    requires { 16 * length records.old + length octets.now ≤ 67108864 }
    ensures to { IfOk result (λ r. IsReadTo (walked form records.old octets.now) records.old octets.now records.new r.0 r.1) }
    ensures err { OnErr result (take (length records.old) records.new ≡ records.old) }
{
    let rest = take_records(alloc, form, records, octets)?;
    if !is_long(form, rest) {
        return Ok((Stage::Entries(form), rest.len()));
    }
    let number = records.len() as u32 + 1;
    *records = Records::new(alloc);
    Ok((Stage::Faulty(CaptureFault::Length { number }), 0))
}

/// Goes on with the octets after the records so far, and answers how far the capture has come and how many
/// octets are left.
#[tactic(auto, using(crate::proofs::Walk::last_of_drop), unfolding(crate::specs::Reading::read_on))]
fn read_on(
    alloc: Global,
    stage: Stage,
    records: &mut Records,
    octets: &[u8],
) -> Result<(Stage, usize), OutOfMemory>
    requires { 16 * length records.old + length octets.now ≤ 67108864 }
    ensures to { IfOk result (λ r. IsReadTo (read_on stage records.old octets.now) records.old octets.now records.new r.0 r.1) }
    ensures err { OnErr result (take (length records.old) records.new ≡ records.old) }
{
    match stage {
        Stage::Faulty(_) => Ok((stage, 0)),
        Stage::Entries(form) => read_entries(alloc, form, records, octets),
        Stage::Header => {
            if octets.len() < HEADER_OCTETS {
                return Ok((stage, octets.len()));
            }
            match header(octets) {
                Ok(form) => read_entries(alloc, form, records, octets.split_at(HEADER_OCTETS).1),
                Err(fault) => Ok((Stage::Faulty(fault), 0)),
            }
        }
    }
}

/// The last octets of some, so many of them.
fn last_of(alloc: Global, octets: &[u8], count: usize) -> Result<FrameOctets, OutOfMemory>
    requires { count ≤ length octets.now }
    ensures last { IfOk result (λ last. last ≡ drop (length octets.now - count) octets.now) }
    ensures none { count ≡ 0 → IsOk result }
{
    let mut last = FrameOctets::new(alloc);
    if count > 0 {
        last.extend(&octets[octets.len() - count..])?;
    }
    Ok(last)
}

/// How many octets of a piece belong to the record whose octets before the piece are these; all of them before the
/// header is whole.
fn lacking(stage: Stage, rest: &[u8], piece: &[u8]) -> usize
    requires { length rest.now + length piece.now ≤ 67108864 }
    ensures count { result ≡ octets_lacking stage rest.now piece.now }
    ensures few { result ≤ length piece.now }
{
    let Stage::Entries(form) = stage else {
        return piece.len();
    };
    let kept = rest.len().min(RECORD_OCTETS);
    let lent = piece.len().min(RECORD_OCTETS - kept);
    let mut head = [0; RECORD_OCTETS];
    head[..kept].copy_from_slice(&rest[..kept]);
    head[kept..kept + lent].copy_from_slice(&piece[..lent]);
    let whole = RECORD_OCTETS.saturating_add(captured(form, &head));
    whole.saturating_sub(rest.len()).min(piece.len())
}

impl Reading {
    /// Nothing has come yet.
    pub fn new(alloc: Global) -> Reading
        ensures { result ≡ new_reading }
    {
        Reading {
            stage: Stage::Header,
            records: Records::new(alloc),
            rest: FrameOctets::new(alloc),
        }
    }

    /// A fault stands that no further octets can mend.
    pub fn failed(alloc: Global, fault: CaptureFault) -> Reading
        ensures { result ≡ failed fault }
    {
        Reading {
            stage: Stage::Faulty(fault),
            records: Records::new(alloc),
            rest: FrameOctets::new(alloc),
        }
    }

    /// One more piece. Of a record that was cut before it the piece's octets are joined to those that are kept, and what
    /// comes after that record is read where it stands. On refusal there may be more records and octets.
    #[tactic(auto, using(crate::proofs::Joined::front_of_front))]
    pub fn take_in(&mut self, alloc: Global, piece: &[u8]) -> Result<(), OutOfMemory>
        requires { 16 * length self.old.records + length self.old.rest + length piece.now ≤ 67108864 }
        ensures ok { OnOk result (self.new ≡ read_on self.old.stage self.old.records (self.old.rest ++ piece.now)) }
        ensures room { OnOk result (16 * length self.new.records + length self.new.rest ≤ 16 * length self.old.records + length self.old.rest + length piece.now) }
        ensures few { OnOk result (length self.new.rest ≤ 262159) }
        ensures stage { OnErr result (self.new.stage ≡ self.old.stage) }
        ensures records { OnErr result (take (length self.old.records) self.new.records ≡ self.old.records) }
        ensures rest { OnErr result (take (length self.old.rest) self.new.rest ≡ self.old.rest) }
    {
        if self.rest.len() == 0 {
            return self.take_from(alloc, piece);
        }
        let behind = self.join(piece)?;
        let whole = self.take_joined(alloc)?;
        if whole {
            return self.take_from(alloc, behind);
        }
        self.take_all(alloc, behind)
    }

    /// Goes on with these octets in place of the rest.
    fn take_from(&mut self, alloc: Global, octets: &[u8]) -> Result<(), OutOfMemory>
        requires { 16 * length self.old.records + length octets.now ≤ 67108864 }
        ensures ok { OnOk result (self.new ≡ read_on self.old.stage self.old.records octets.now) }
        ensures room { OnOk result (16 * length self.new.records + length self.new.rest ≤ 16 * length self.old.records + length octets.now) }
        ensures few { OnOk result (length self.new.rest ≤ 262159) }
        ensures stage { OnErr result (self.new.stage ≡ self.old.stage) }
        ensures records { OnErr result (take (length self.old.records) self.new.records ≡ self.old.records) }
        ensures rest { OnErr result (self.new.rest ≡ self.old.rest) }
    {
        let (stage, left) = read_on(alloc, self.stage, &mut self.records, octets)?;
        self.rest = last_of(alloc, octets, left)?;
        self.stage = stage;
        Ok(())
    }

    /// Goes on with a piece behind the rest.
    fn take_all(&mut self, alloc: Global, piece: &[u8]) -> Result<(), OutOfMemory>
        requires { 16 * length self.old.records + length self.old.rest + length piece.now ≤ 67108864 }
        ensures ok { OnOk result (self.new ≡ read_on self.old.stage self.old.records (self.old.rest ++ piece.now)) }
        ensures room { OnOk result (16 * length self.new.records + length self.new.rest ≤ 16 * length self.old.records + length self.old.rest + length piece.now) }
        ensures few { OnOk result (length self.new.rest ≤ 262159) }
        ensures stage { OnErr result (self.new.stage ≡ self.old.stage) }
        ensures records { OnErr result (take (length self.old.records) self.new.records ≡ self.old.records) }
        ensures rest { OnErr result (take (length self.old.rest) self.new.rest ≡ self.old.rest) }
    {
        self.rest.extend(piece)?;
        let octets = self.rest.as_slice();
        let (stage, left) = read_on(alloc, self.stage, &mut self.records, octets)?;
        if left < octets.len() {
            self.rest = last_of(alloc, octets, left)?;
        }
        self.stage = stage;
        Ok(())
    }

    /// Puts those octets of a piece that belong to the record in the rest behind the rest, and answers the others.
    fn join<'a>(&mut self, piece: &'a [u8]) -> Result<&'a [u8], OutOfMemory>
        requires { length self.old.rest + length piece.now ≤ 67108864 }
        ensures behind { IfOk result (λ behind. behind.now ≡ drop (octets_lacking self.old.stage self.old.rest piece.now) piece.now) }
        ensures joined { IfOk result (λ behind. self.new.rest ++ behind.now ≡ self.old.rest ++ piece.now) }
        ensures count { IfOk result (λ behind. length self.new.rest + length behind.now ≡ length self.old.rest + length piece.now) }
        ensures rest { take (length self.old.rest) self.new.rest ≡ self.old.rest }
        ensures records { self.new.records ≡ self.old.records }
        ensures stage { self.new.stage ≡ self.old.stage }
    {
        let count = lacking(self.stage, self.rest.as_slice(), piece);
        let (front, behind) = piece.split_at(count);
        self.rest.extend(front)?;
        Ok(behind)
    }

    /// Puts the record in the rest behind the others where the rest is just that whole record, and says whether it is.
    #[tactic(auto, using(crate::proofs::Joined::joined_is))]
    fn take_joined(&mut self, alloc: Global) -> Result<bool, OutOfMemory>
        ensures joined { IfOk result (λ b. IsTrue b → (piece : List ℕ) →
            read_on self.new.stage self.new.records piece ≡ read_on self.old.stage self.old.records (self.old.rest ++ piece)) }
        ensures room { IfOk result (λ b. IsTrue b → 16 * length self.new.records ≤ 16 * length self.old.records + length self.old.rest) }
        ensures one { IfOk result (λ b. b ≡ is_one_record self.old.stage self.old.rest) }
        ensures none { IfOk result (λ b. b ≡ false → self.new.records ≡ self.old.records) }
        ensures records { take (length self.old.records) self.new.records ≡ self.old.records }
        ensures rest { self.new.rest ≡ self.old.rest }
        ensures stage { self.new.stage ≡ self.old.stage }
    {
        let Stage::Entries(form) = self.stage else {
            return Ok(false);
        };
        let octets = self.rest.as_slice();
        if !is_whole(form, octets) {
            return Ok(false);
        }
        if RECORD_OCTETS + captured(form, octets) < octets.len() {
            return Ok(false);
        }
        self.records.push(record_at(alloc, form, octets)?)?;
        Ok(true)
    }

    /// Drops what came after these records and octets.
    pub fn go_back(&mut self, records: usize, rest: usize)
        requires records { records ≤ length self.old.records }
        requires rest { rest ≤ length self.old.rest }
        ensures stage { self.new.stage ≡ self.old.stage }
        ensures records { self.new.records ≡ take records self.old.records }
        ensures rest { self.new.rest ≡ take rest self.old.rest }
    {
        shorten(&mut self.records, records);
        shorten(&mut self.rest, rest);
    }
}
