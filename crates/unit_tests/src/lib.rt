// Functions below the calls, each called as another crate calls it.
#![tactic(auto)]

#[cfg(test)]
mod tests {
    use gens::records::Records;
    use reader::call;
    use reader::key::ListedKey;
    use reader::table::PlaceTable;
    use release_keys::table::FreedBucket;
    use wire::kinds::Bucket;

    // A place of 32 bits is noted and counted; after one past them nothing is counted any more, and what was noted stays.
    #[test]
    fn places_are_noted_up_to_a_limit(rt: HostRuntime) {
        let mut index = [7u32; 3];
        let mut table = PlaceTable::new(&mut index);
        table.note(0, 0xffff_ffff);
        assert!(rt; table.n < table.index.len());
        assert!(rt; table.counts == Some([1, 0, 0, 0, 0, 0, 0, 0]));
        table.note(7, 0x1_0000_0000);
        assert!(rt; table.counts.is_none());
        assert_eq!(rt; table.n, 1);
        assert!(rt; index == [0xffff_ffff, 7, 7]);
    }

    // A volume: field 1, an alloc key without a value at place 45, and a generation record without one at place 85.
    fn volume() -> [u8; 122] {
        let mut list = [0u8; 122];
        list[0] = 1;
        list[1] = 39;
        list[3] = 1;
        list[42] = 4;
        list[43] = 37;
        list[45] = 27;
        list[82] = 14;
        list[83] = 37;
        list[85] = 30;
        list
    }

    // How many alloc keys are walked over, and where the record of bucket 7 and the key of a freed bucket stand.
    #[test]
    fn keys_stand_at_their_places(rt: HostRuntime) {
        let list = volume();
        let walked = call::with_list(&list, None, &mut [], &mut [], |read, _, _| {
            Ok(read.alloc.skip_while(0, |k: ListedKey| k.key_type() == 27))
        });
        assert_eq!(rt; walked.unwrap_or(9), 1);
        let record = call::with_list(&list, None, &mut [], &mut [], |read, _, _| {
            Ok(
                Records::of(read.gens)
                    .record_of(Bucket(7))
                    .map_or(0, |k| k.at),
            )
        });
        assert_eq!(rt; record.unwrap_or(9), 85);
        let freed = call::with_list(&list, None, &mut [], &mut [], |read, _, _| {
            let place = read.alloc.get(0).map(|k| k.at as u32);
            let row = FreedBucket {
                bucket: Bucket(0),
                sectors: 8,
                place,
            };
            Ok(row.key(read.alloc.list).map_or(0, |k| k.at))
        });
        assert_eq!(rt; freed.unwrap_or(9), 45);
    }
}
