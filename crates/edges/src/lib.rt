// Tests of the link table at its edges: no rows, a full table, equal ends, the least and the greatest node number, unfinished rows. They
// stand apart, so that the table is not proved once more with them.
#![tactic(auto)]

#[cfg(test)]
mod tests {
    use links::answer::*;
    use links::table::LinkTable;
    use model::link::*;
    use model::refusal::*;
    use std::test::Fail;

    const GREATEST: u32 = 4294967295;

    fn row(first: u32, second: u32) -> Row {
        Row { first, second }
    }

    // A table with the links 0-1, 1-2 and so on, as many as are asked for and there is room for.
    fn path(links: u32) -> LinkTable {
        let mut table = LinkTable::new();
        for i in 0..links {
            let _ = table.add(row(i, i + 1));
        }
        table
    }

    #[test]
    fn no_rows(rt: HostRuntime) {
        let mut table = LinkTable::new();
        assert_eq!(rt;
            table.add_rows(&[]),
            Ok(RowsAdded {
                rows: 0,
                repeats: 0,
            })
        );
        assert_eq!(rt; table.len(), 0);
        assert_eq!(rt; table.get(0), None);
        assert!(rt; !table.contains(row(0, 1)));
    }

    #[test]
    fn room_for_2048(rt: HostRuntime) {
        let mut table = path(2047);
        assert_eq!(rt; table.len(), 2047);
        assert_eq!(rt; table.get(2047), None);
        assert_eq!(rt; table.add(row(2048, 2047)), Ok(Added::New));
        assert_eq!(rt; table.len(), 2048);
        assert_eq!(rt;
            table.get(2047),
            Some(Link {
                low: 2047,
                high: 2048,
            })
        );
        assert_eq!(rt; table.get(2048), None);
    }

    #[test]
    fn full(rt: HostRuntime) {
        let mut table = path(2049);
        assert_eq!(rt; table.len(), 2048);
        assert_eq!(rt; table.add(row(2048, 2049)), Err(TableFault::TableFull));
        assert_eq!(rt; table.add(row(0, 2)), Err(TableFault::TableFull));
        assert_eq!(rt; table.add(row(0, 1)), Ok(Added::Already));
        assert_eq!(rt; table.add(row(2048, 2047)), Ok(Added::Already));
        assert_eq!(rt; table.add(row(9, 9)), Err(TableFault::SelfLink));
        assert_eq!(rt; table.len(), 2048);
        assert!(rt; table.contains(row(1, 0)) && !table.contains(row(0, 2)));
    }

    #[test]
    fn full_by_bytes(rt: HostRuntime) {
        let mut table = path(2048);
        let known_then_new = [1, 0, 0, 0, 0, 0, 0, 0, 0, 0, 0, 0, 2, 0, 0, 0];
        let stop = RowsFault {
            row: 1,
            fault: RowFault::Table(TableFault::TableFull),
        };
        assert_eq!(rt; table.add_rows(&known_then_new), Err(stop));
    }

    #[test]
    fn equal_ends(rt: HostRuntime) {
        let mut table = LinkTable::new();
        assert_eq!(rt; table.add(row(0, 0)), Err(TableFault::SelfLink));
        assert_eq!(rt;
            table.add(row(GREATEST, GREATEST)),
            Err(TableFault::SelfLink)
        );
        assert_eq!(rt; table.len(), 0);
        assert!(rt; !table.contains(row(0, 0)));
    }

    #[test]
    fn least_and_greatest_number(rt: HostRuntime) {
        let mut table = LinkTable::new();
        assert_eq!(rt; table.add(row(GREATEST, GREATEST - 1)), Ok(Added::New));
        assert_eq!(rt; table.add(row(GREATEST, 0)), Ok(Added::New));
        assert_eq!(rt;
            table.add_rows(&[0, 0, 0, 0, 255, 255, 255, 255]),
            Ok(RowsAdded {
                rows: 1,
                repeats: 1,
            })
        );
        assert_eq!(rt;
            table.get(0),
            Some(Link {
                low: 0,
                high: GREATEST,
            })
        );
        assert_eq!(rt;
            table.get(1),
            Some(Link {
                low: GREATEST - 1,
                high: GREATEST,
            })
        );
        assert_eq!(rt; table.len(), 2);
    }

    #[test]
    fn ragged(rt: HostRuntime) {
        let mut table = LinkTable::new();
        assert_eq!(rt;
            table.add_rows(&[5]),
            Err(RowsFault {
                row: 0,
                fault: RowFault::Ragged,
            })
        );
        assert_eq!(rt;
            table.add_rows(&[1, 0, 0, 0, 2, 0, 0]),
            Err(RowsFault {
                row: 0,
                fault: RowFault::Ragged,
            })
        );
        assert_eq!(rt; table.len(), 0);
        assert_eq!(rt;
            table.add_rows(&[1, 0, 0, 0, 2, 0, 0, 0, 3]),
            Err(RowsFault {
                row: 1,
                fault: RowFault::Ragged,
            })
        );
        assert_eq!(rt; table.len(), 1);
        assert!(rt; table.contains(row(2, 1)));
    }

    #[test]
    fn first_fault_is_told(rt: HostRuntime) {
        let mut table = LinkTable::new();
        let bytes = [
            1, 0, 0, 0, 2, 0, 0, 0, 7, 0, 0, 0, 7, 0, 0, 0, 3, 0, 0, 0, 4, 0, 0, 0, 9,
        ];
        let stop = RowsFault {
            row: 1,
            fault: RowFault::Table(TableFault::SelfLink),
        };
        assert_eq!(rt; table.add_rows(&bytes), Err(stop));
        assert_eq!(rt; table.len(), 1);
        assert!(rt; table.contains(row(1, 2)) && !table.contains(row(3, 4)));
    }

    #[test]
    fn order_and_direction(rt: HostRuntime) {
        let mut table = LinkTable::new();
        let mut other = LinkTable::new();
        let rows = [
            1, 2, 3, 4, 5, 6, 7, 8, 9, 9, 9, 9, 0, 0, 0, 0, 5, 6, 7, 8, 1, 2, 3, 4,
        ];
        let turned = [0, 0, 0, 0, 9, 9, 9, 9, 5, 6, 7, 8, 1, 2, 3, 4];
        assert_eq!(rt;
            table.add_rows(&rows),
            Ok(RowsAdded {
                rows: 3,
                repeats: 1,
            })
        );
        assert_eq!(rt;
            other.add_rows(&turned),
            Ok(RowsAdded {
                rows: 2,
                repeats: 0,
            })
        );
        assert_eq!(rt;
            table.get(0),
            Some(Link {
                low: 0,
                high: 151587081,
            })
        );
        assert_eq!(rt;
            table.get(1),
            Some(Link {
                low: 67305985,
                high: 134678021,
            })
        );
        assert_eq!(rt; other.get(0), table.get(0));
        assert_eq!(rt; other.get(1), table.get(1));
        assert_eq!(rt; other.len(), 2);
    }

    #[test]
    fn refusals(rt: HostRuntime) {
        let full = Refusal::from(TableFault::TableFull);
        let unfinished = Refusal::from(RowFault::Ragged);
        assert_eq!(rt; u8::from(full), 9);
        assert_eq!(rt;
            u8::from(Refusal::from(RowFault::Table(TableFault::SelfLink))),
            10
        );
        assert_eq!(rt; u8::from(unfinished), 12);
        assert_eq!(rt; u8::from(Refusal::BadRecord(7)), 8);
        assert_eq!(rt; u8::from(Refusal::Overspare), 15);
        assert_eq!(rt; full.word(), "table full");
        assert_eq!(rt; unfinished.word(), "ragged");
        assert_eq!(rt; Refusal::BadRecord(0).word(), "bad record");
    }

    #[test]
    fn shown(rt: HostRuntime) -> Result<(), Fail> {
        let link = format!(in rt.alloc(); "{}", Link::from(row(GREATEST, 7)))?;
        assert_eq!(rt; link.as_str(), "7-4294967295");
        let refusal = format!(in rt.alloc(); "{}", Refusal::OffEdge)?;
        assert_eq!(rt; refusal.as_str(), "off edge");
        Ok(())
    }

    #[test]
    fn all_links(rt: HostRuntime) {
        let mut table = LinkTable::new();
        assert_eq!(rt; table.add(row(3, 2)), Ok(Added::New));
        assert_eq!(rt; table.add(row(0, 3)), Ok(Added::New));
        let links = [Link { low: 0, high: 3 }, Link { low: 2, high: 3 }];
        assert_eq!(rt; table.links(), links.as_slice());
    }
}
