// Refusals 15 to 19: the lowest bucket, then the lowest number in it.
ghost use Rattle.std.specs.Prelude.{◌≡◌, map};
ghost use Rattle.calls.specs.Refusals.{verdict};
ghost use Rattle.calls.specs.Release.{freed_buckets, bucket_refusal};
ghost use Rattle.reader.specs.ListedKeys.{keys_listed};
ghost use Rattle.reader.specs.Refusals.{number_in};
ghost use Rattle.release_keys.specs.Given.{volume_in, requests_in};
ghost use Rattle.release_keys.specs.Tables.{FreedEntry};

use crate::table::{FreedBucket, FreedTable};
use format::alloc;
use gens::records::Records;
use reader::read_list::ReadList;
use reader::refusal::Refusal;

// 15 to 19 at a bucket. The table and `Records::of` show what is required.
fn bucket_refusal(read: &ReadList, records: &Records, f: FreedBucket) -> Result<(), Refusal>
    requires { FreedEntry read.now.alloc.list.now (volume_in read.now) (requests_in read.now) f × (keys_listed records.now.gens ≡ keys_listed read.now.gens) }
    ensures { number_in result ≡ bucket_refusal (volume_in read.now) (requests_in read.now) f.bucket }
{
    let key = f.key(read.alloc.list).ok_or(Refusal::NoAlloc)?;
    let value = key.value();
    if value.len() < 56 {
        return Err(Refusal::ShortAlloc);
    }
    let dirty = alloc::dirty_sectors(value, 0);
    if (read.head.bucket_sectors as u32) < dirty {
        return Err(Refusal::DirtyPastBucket);
    }
    if dirty < f.sectors {
        return Err(Refusal::FreedPastDirty);
    }
    if dirty == f.sectors && records.gen_short(f.bucket) {
        return Err(Refusal::ShortGens);
    }
    Ok(())
}

// 15 to 19 over the freed buckets, which ascend. `Records::of` shows what is required.
// The records apart: `refuse` takes them with a `FreedTable`, the batch with a `HeldTable`, and a struct of either would be taken apart again.
pub fn refuse(table: &FreedTable, records: &Records) -> Result<(), Refusal>
    requires { keys_listed records.now.gens ≡ keys_listed table.now.read.gens }
    ensures { number_in result ≡ verdict (map (bucket_refusal (volume_in table.now.read) (requests_in table.now.read)) (freed_buckets table.now.read.head.bucket_sectors (requests_in table.now.read))) }
{
    for &f in table.buckets {
        bucket_refusal(&table.read, records, f)?;
    }
    Ok(())
}
