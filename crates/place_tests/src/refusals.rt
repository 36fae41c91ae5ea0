// Refusals 4 to 13 of a placement, in their order, and what is chosen for it where none is met.
ghost use Rattle.std.specs.Prelude.{◌≡◌, false, ◌≤◌, leb, length, take, IfOk};
ghost use Rattle.std.specs.Int.NonZero.{non_zero_u64_get};
ghost use Rattle.calls.specs.Answers.{read_call, read_volume};
ghost use Rattle.calls.specs.Freespace.{is_in, runs_of, overlaps, free_count, wanted};
ghost use Rattle.calls.specs.Place.{place_tests};
ghost use Rattle.calls.specs.Refusals.{verdict};
ghost use Rattle.format.specs.Checksums.{option_byte};
ghost use Rattle.reader.specs.PieceLists.{pieces_of};
ghost use Rattle.reader.specs.Refusals.{number_in};

use crate::asked::Placement;
use crate::requests;
use format::checksums::ChecksumOption;
use freespace::take::Walked;
use freespace::{runs, take};
use next_fit::layout;
use next_fit::slot::Slot;
use reader::refusal::Refusal;
use std::num::NonZero;
use wire::kinds::Bucket;

// What is chosen for a placement, beside the buckets and the slots, which stand in two tables: the sectors of a bucket, the checksum option, and how far the walk over the runs is.
#[derive(Clone, Copy, Drop)]
pub struct Choice {
    pub sectors: NonZero<u64>,
    pub option: ChecksumOption,
    pub walked: Walked,
}

// What is chosen for a placement: the sectors of a bucket, the checksum option, the slots of the pieces, the buckets taken, and how far the walk over the runs is.
#[derive(Clone, Copy, Drop)]
pub struct Chosen<'a> {
    pub sectors: NonZero<u64>,
    pub option: ChecksumOption,
    pub slots: &'a [Slot],
    pub taken: &'a [Bucket],
    pub walked: Walked,
}

impl<'a> Placement<'a> {
    ghost use Rattle.place_tests.specs.Choice.{ChoiceIs, ChosenIs};

    // Refusals 4 to 9, of what is asked: the first of them, or the sectors of a bucket and the checksum option.
    #[tactic(auto, unfolding(calls::specs::Pieces::block_of))]
    fn refuse_requests(&self) -> Result<(NonZero<u64>, ChecksumOption), Refusal>
        ensures refusal { number_in result ≡ verdict (take 6 (place_tests (read_call self.now.read.now.list.now))) }
        ensures head { IfOk result (λ r. (non_zero_u64_get r.0 ≡ self.now.read.now.head.bucket_sectors) × (option_byte r.1 ≡ self.now.read.now.head.option)) }
    {
        let h = self.read.head;
        let sectors = NonZero::<u64>::new(h.bucket_sectors as u64).ok_or(Refusal::NoSectors)?;
        let option = ChecksumOption::try_from(h.option).map_err(|_| Refusal::ChecksumOption)?;
        if !requests::kinds_listed(&self.pieces) {
            return Err(Refusal::CompressionKind);
        }
        if !requests::option_fits(&self.pieces, h.option) {
            return Err(Refusal::NoChecksum);
        }
        let block = requests::block_of(h.block_sectors);
        if !requests::block_fits(block, h.bucket_sectors) {
            return Err(Refusal::BlockSectors);
        }
        if !requests::pieces_sized(&self.pieces, h.bucket_sectors, block) {
            return Err(Refusal::PieceSectors);
        }
        Ok((sectors, option))
    }

    // Refusal 11: whether enough buckets are free for the n that are needed. Refusal 10 and 1,024 pieces show what is asked.
    #[tactic(auto, unfolding(calls::specs::Freespace::wanted))]
    fn enough_free(&self, n: usize) -> bool
        requires { (overlaps (runs_of (read_volume self.now.read.now.list.now).trees.freespace) ≡ false) × (n ≤ 1024) }
        ensures { result ≡ leb (wanted n self.now.read.now.head.reserve) (free_count (is_in (read_volume self.now.read.now.list.now).reserved) (runs_of (read_volume self.now.read.now.list.now).trees.freespace)) }
    {
        let read = self.read;
        let wanted = n as u64 + 32 + read.head.reserve as u64;
        wanted <= runs::free_count(read.freespace, read.reserved)
    }

    // The slots and the buckets of the pieces, in the fronts of two tables: the first refusal of 4 to 13, or what else is chosen. The lent tables show what is required.
    pub fn choose_buckets(
        &self,
        taken: &mut [Bucket],
        slots: &mut [Slot],
    ) -> Result<Choice, Refusal>
        requires { (1024 ≤ length taken.old) × (1024 ≤ length slots.old) }
        ensures { ChoiceIs self.now.read.now.list.now taken.old taken.new (take (length (pieces_of self.now.pieces)) slots.new) result }
    {
        let read = self.read;
        // 4 to 9: what is asked
        let (sectors, option) = self.refuse_requests()?;
        // 10: two runs overlap
        if runs::overlaps(read.freespace) {
            return Err(Refusal::RunsOverlap);
        }
        // 11: too few buckets are free
        let n = layout::lay_out(&self.pieces, read.head.bucket_sectors, slots);
        if !self.enough_free(n) {
            return Err(Refusal::TooFewFree);
        }
        // 12 and 13: the walk meets a run begun before bucket 0, or a used bucket
        let walked = take::walk_runs(read, n, taken)?;
        Ok(Choice {
            sectors,
            option,
            walked,
        })
    }

    // The same, with the slots and the buckets as the fronts of the tables that hold them.
    pub fn choose(
        &self,
        taken: &'a mut [Bucket],
        slots: &'a mut [Slot],
    ) -> Result<Chosen<'a>, Refusal>
        requires { (1024 ≤ length taken.old) × (1024 ≤ length slots.old) }
        ensures { ChosenIs self.now.read.now.list.now result }
    {
        let choice = self.choose_buckets(taken, slots)?;
        Ok(Chosen {
            sectors: choice.sectors,
            option: choice.option,
            slots: &slots[..self.pieces.len()],
            taken: &taken[..choice.walked.count],
            walked: choice.walked,
        })
    }
}
