// The answer of a release to a list that was read: refusals 4 and 14 to 19, then the change list, or 21.
ghost use Rattle.std.specs.Prelude.{◌≡◌, true, ◌++◌, ◌≤◌, length, drop, replicate};
ghost use Rattle.calls.specs.Answers.{answer, outcome};
ghost use Rattle.calls.specs.CallList.{keys_ascend};
ghost use Rattle.calls.specs.Release.{release_tests};
ghost use Rattle.reader.specs.ListedKeys.{keys_listed};
ghost use Rattle.reader.specs.Refusals.{made_by};
ghost use Rattle.release_sums.specs.Freeds.{Requested};
ghost use Rattle.release_keys.specs.Given.{volume_in, requests_in};
ghost use Rattle.release.specs.Given.{change_of};
ghost use Rattle.release.specs.Outcomes.{bucket_tests};

use crate::batch::ReleaseBatch;
use arrayvec::ArrayVec;
use gens::records::Records;
use reader::answer;
use reader::read_list::ReadList;
use reader::refusal::Refusal;
use release_keys::freed_buckets::EmptiedBucket;
use release_keys::table::{FreedBucket, FreedTable, HeldTable};
use release_keys::{allocs, freed_buckets, refusals};
use release_sums::requests::Freeds;
use release_sums::sums::ClearedScratch;
use std::num::NonZero;
use wire::kinds::Bucket;

// The answer where the freed buckets are listed: refusals 15 to 19, then the change list, or 21.
fn release_table(table: FreedTable, out: &mut [u8]) -> Result<usize, Refusal>
    ensures { made_by result out.new ≡ outcome (answer (bucket_tests (volume_in table.entry.read) (requests_in table.entry.read)) (change_of table.entry.read) (length out.old)) out.old }
{
    let records = Records::of(table.read.gens);
    refusals::refuse(&table, &records)?;
    let held = HeldTable { freed: table };
    let mut emptied = ArrayVec::<EmptiedBucket, 1024>::new();
    freed_buckets::find_emptied(&held, &mut emptied);
    let batch = ReleaseBatch::new(held, &records, emptied.as_slice());
    answer::written(&batch, out)
}

// The answer after refusals 1, 2, 22 and 3, and the scratch, which is left cleared. The reader shows what is required.
pub fn release_lists(
    read: &ReadList,
    scratch: &mut ClearedScratch,
    out: &mut [u8],
) -> Result<usize, Refusal>
    requires ascend { keys_ascend (keys_listed read.now.alloc) ≡ true }
    requires requested { Requested read.now.list.now read.now.requests.now × (length read.now.requests.now ≤ 1024) }
    ensures same_reference { scratch.new.sums.ghost_name ≡ scratch.old.sums.ghost_name }
    ensures answered { (made_by result out.new ≡ outcome (answer (release_tests (volume_in read.now) (requests_in read.now)) (change_of read.now) (length out.old)) out.old) × (scratch.new.sums.now ≡ replicate 65536 0 ++ drop 65536 scratch.old.sums.now) }
{
    let sectors = NonZero::<u64>::new(read.head.bucket_sectors as u64).ok_or(Refusal::NoSectors)?;
    if !Freeds::of(read).all_ok(sectors) {
        return Err(Refusal::OutsideBucket);
    }
    let mut buckets = [FreedBucket {
        bucket: Bucket(0),
        sectors: 0,
        place: None,
    }; 1024];
    let table = allocs::list_freed(*read, sectors, scratch, &mut buckets);
    release_table(table, out)
}
