//! Settings that numbers stand for, made and read back.
use crate::calling::carried_out;
use md_setting::SettingFile;
use md_toml::read_setting;
use std::test::Fail;

// The draws of 1 are 149, 11249, 57305, 38044, 35283 and 24819 for the values, and 26463, 18689, 25472, 9901, 21742 and
// 57836 for the weights.
#[test]
fn the_auction_of_1_is_printed(rt: HostRuntime) -> Result<(), Fail> {
    let alloc = rt.alloc();
    let made = carried_out(alloc, &["make", "1"], b"", b"")?;
    let Ok(SettingFile::Auction(auction)) = read_setting(alloc, made.out.bytes()) else {
        return Err("no auction")?;
    };
    assert_eq!(rt; auction.bidders(), 4);
    assert_eq!(rt; auction.values(), [5, 10, 11, 16, 20, 25].as_slice());
    assert_eq!(rt; auction.weights(), [1, 3, 3, 2, 2, 3].as_slice());
    assert_eq!(rt;
        (auction.revenue(), auction.welfare(), auction.keep()),
        (1, 0, 0)
    );
    Ok(())
}

// The first and the last number that stand for a setting.
#[test]
fn the_least_and_the_greatest_number_are_made(rt: HostRuntime) -> Result<(), Fail> {
    let alloc = rt.alloc();
    for number in ["0", "999999"] {
        let made = carried_out(alloc, &["make", number], b"", b"")?;
        assert_eq!(rt; made.status, 0, "at {number}");
        assert!(rt;
            read_setting(alloc, made.out.bytes()).is_ok(),
            "at {number}"
        );
    }
    Ok(())
}
