use labels::{Cap, House, Ladder, Pair, Scheme, SchemeFault, Topics};
use std::test::Fail;

const LAST: u64 = u64::MAX;

#[test]
fn sizes_out_of_range_are_refused_with_7(rt: HostRuntime) {
    for levels in [0, 257, LAST] {
        assert_eq!(rt; Ladder::new(levels), Err(SchemeFault::Size));
    }
    for topics in [0, 65] {
        assert_eq!(rt; Topics::new(topics), Err(SchemeFault::Size));
    }
    for principals in [0, 9] {
        assert_eq!(rt; House::new(principals), Err(SchemeFault::Size));
    }
    assert_eq!(rt; SchemeFault::Size.number(), 7);
}

#[test]
fn sizes_at_the_edges_are_built(rt: HostRuntime) -> Result<(), Fail> {
    assert_eq!(rt; Ladder::new(1)?.width(), 8);
    assert_eq!(rt; Ladder::new(256)?.width(), 8);
    assert_eq!(rt; Topics::new(1)?.width(), 1);
    assert_eq!(rt; Topics::new(64)?.width(), 64);
    assert_eq!(rt; House::new(1)?.width(), 1);
    assert_eq!(rt; House::new(8)?.width(), 64);
    Ok(())
}

#[test]
fn a_ladder_of_one_means_one_thing(rt: HostRuntime) -> Result<(), Fail> {
    let one = Ladder::new(1)?;
    assert!(rt; one.flows_to(LAST, 0) && one.flows_to(0, LAST));
    assert_eq!(rt; one.join(LAST, 200), 0);
    let most = Ladder::new(256)?;
    assert!(rt; most.flows_to(254, 255) && !most.flows_to(255, 254));
    assert!(rt; most.flows_to(LAST, 255));
    assert_eq!(rt; most.join(LAST, 3), 255);
    Ok(())
}

#[test]
fn topics_count_their_lowest_bits(rt: HostRuntime) -> Result<(), Fail> {
    let one = Topics::new(1)?;
    assert!(rt; one.flows_to(LAST, 1) && !one.flows_to(1, LAST - 1));
    assert_eq!(rt; one.join(LAST, 0), 1);
    let all = Topics::new(64)?;
    assert!(rt; all.flows_to(0, LAST) && !all.flows_to(LAST, LAST - 1));
    assert_eq!(rt; all.join(0x8000_0000_0000_0000, 1), 0x8000_0000_0000_0001);
    Ok(())
}

#[test]
fn a_house_counts_no_bar_of_oneself(rt: HostRuntime) -> Result<(), Fail> {
    let one = House::new(1)?;
    assert!(rt; one.flows_to(LAST, 0));
    assert_eq!(rt; one.join(LAST, LAST), 0);
    // In a house of eight the bars of oneself are the bits 0, 9, 18, .. 63.
    let eight = House::new(8)?;
    assert!(rt; eight.flows_to(0x8040_2010_0804_0201, 0));
    assert_eq!(rt; eight.join(LAST, 0), 0x7fbf_dfef_f7fb_fdfe);
    assert!(rt; !eight.flows_to(2, 4) && eight.flows_to(2, 6));
    Ok(())
}

#[test]
fn a_pair_of_64_bits_stands_and_one_of_65_does_not(rt: HostRuntime) -> Result<(), Fail> {
    let stands = Pair::new(Topics::new(32)?, Topics::new(32)?);
    assert_eq!(rt; stands.width(), 64);
    assert!(rt; !stands.flows_to(0x1_0000_0000, 1) && !stands.flows_to(1, 0x1_0000_0000));
    assert_eq!(rt; stands.join(0x1_0000_0000, 1), 0x1_0000_0001);
    assert_eq!(rt; stands.join(LAST, 0), LAST);
    let wide = Pair::new(Topics::new(32)?, Topics::new(33)?);
    assert_eq!(rt; wide.width(), 1);
    assert!(rt; wide.flows_to(LAST, 0) && wide.flows_to(0x1_0000_0000, 1));
    assert_eq!(rt; wide.join(LAST, LAST), 0);
    Ok(())
}

#[test]
fn a_pair_with_a_low_part_of_64_bits_is_too_wide(rt: HostRuntime) -> Result<(), Fail> {
    let wide = Pair::new(Topics::new(64)?, Ladder::new(4)?);
    assert_eq!(rt; wide.width(), 1);
    assert_eq!(rt; wide.join(9, 18), 0);
    assert!(rt; wide.flows_to(9, 0));
    Ok(())
}

#[test]
fn a_cap_over_a_pair_over_a_cap(rt: HostRuntime) -> Result<(), Fail> {
    // Topics 0 and 1 count below the cap 3; the ladder above them is capped at level 1.
    let low = Cap::new(Topics::new(3)?, 3);
    let scheme = Cap::new(Pair::new(low, Ladder::new(4)?), 11);
    assert_eq!(rt; scheme.width(), 11);
    // Topic 2 is not below the inner cap, so 4 counts there as 3; level 3 with no topic is not below 11, so 24 counts as 11.
    assert_eq!(rt; scheme.join(4, 0), 3);
    assert_eq!(rt; scheme.join(24, 0), 11);
    assert!(rt; scheme.flows_to(4, 3) && scheme.flows_to(3, 4));
    assert!(rt; scheme.flows_to(LAST, 11) && scheme.flows_to(11, LAST));
    assert!(rt; !scheme.flows_to(8, 3) && scheme.flows_to(0, 8));
    Ok(())
}

#[test]
fn the_pair_of_three_topics_and_a_ladder_of_four(rt: HostRuntime) -> Result<(), Fail> {
    let pair = Pair::new(Topics::new(3)?, Ladder::new(4)?);
    assert_eq!(rt; pair.width(), 11);
    assert_eq!(rt; pair.join(9, 18), 19);
    assert!(rt; !pair.flows_to(9, 18) && !pair.flows_to(18, 9));
    assert!(rt; pair.flows_to(9, 19) && pair.flows_to(18, 19));
    let house = House::new(2)?;
    assert_eq!(rt; house.join(2, 4), 6);
    assert!(rt; house.flows_to(9, 0));
    assert_eq!(rt; Ladder::new(4)?.join(200, 1), 3);
    Ok(())
}
