//! A clip over another, as they are shown.

use film_reader::read_project;
use film_timeline::{Cell, black_count, cells, fresh_count, is_repeat};
use std::test::Fail;

const TEXT: &str =
    "{\"title\":\"Test\",\"kind\":\"test\",\"issued\":\"2024-05-01T12:00:00\",\"namespace\":\"6ba7b810-9dad-11d1-80b4-00c04fd430c8\",\"width\":64,\"height\":48,\"fps\":24,\"rate\":250,\"power\":11,\"channels\":0,\"frames\":6,\"assets\":[{\"id\":\"a\",\"kind\":\"rgb48\",\"file\":\"a.rgb\"},{\"id\":\"b\",\"kind\":\"rgb48\",\"file\":\"b.rgb\"}],\"picture\":[{\"asset\":\"a\",\"at\":0,\"from\":0,\"count\":4},{\"asset\":\"b\",\"at\":2,\"from\":5,\"count\":3,\"hold\":2}],\"sound\":[]}";

const SHOWN: [Cell; 6] = [
    Cell::Frame { asset: 0, index: 0 },
    Cell::Frame { asset: 0, index: 1 },
    Cell::Frame { asset: 1, index: 5 },
    Cell::Frame { asset: 1, index: 5 },
    Cell::Frame { asset: 1, index: 6 },
    Cell::Black,
];

#[test]
fn a_later_clip_hides_an_earlier_one(rt: HostRuntime) -> Result<(), Fail> {
    let alloc = rt.alloc();
    match read_project(alloc, TEXT.as_bytes()) {
        Ok(project) => {
            let cells = cells(alloc, &project)?;
            assert_eq!(rt; cells.as_slice(), SHOWN.as_slice());
            assert_eq!(rt; fresh_count(cells.as_slice()), 5);
            assert_eq!(rt; black_count(cells.as_slice()), 1);
            for f in 0..6 {
                assert_eq!(rt; is_repeat(cells.as_slice(), f), f == 3, "at {f}");
            }
        }
        Err(refusal) => assert!(rt; false, "{refusal:?}"),
    }
    Ok(())
}
