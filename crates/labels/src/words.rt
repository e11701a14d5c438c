// What the order and the join of each scheme are, in its own words: each statement is the contract of a function that does nothing.
ghost use Rattle.std.specs.Prelude.{◌≡◌};
ghost use Rattle.labels.specs.Schemes.{ladder_flows, ladder_joins, ladder_bits, topics_flows, topics_joins, house_flows, house_joins, house_bits, pair_flows, pair_joins, pair_bits, cap_flows, cap_joins};
ghost use Rattle.labels.specs.Words.{TopicsBitwise, HouseBitwise, LadderInWords, PairInWords, CapInWords};

use crate::cap::Cap;
use crate::house::House;
use crate::ladder::Ladder;
use crate::pair::Pair;
use crate::scheme::Scheme;
use crate::topics::Topics;

/// A ladder is the scheme that the definitions tell.
pub fn ladder_is_defined(ladder: &Ladder)
    ensures flows { ⟦<Ladder as Scheme>⟧.flows ladder.now ≡ ladder_flows ladder.now.levels }
    ensures joins { ⟦<Ladder as Scheme>⟧.joins ladder.now ≡ ladder_joins ladder.now.levels }
    ensures bits { ⟦<Ladder as Scheme>⟧.bits ladder.now ≡ ladder_bits }
{}

/// A pair is the scheme that the definitions tell, of the two schemes that it holds.
pub fn pair_is_defined<A: Scheme, B: Scheme>(pair: &Pair<A, B>)
    ensures flows { ⟦<Pair<A, B> as Scheme>⟧.flows pair.now ≡ pair_flows (A.Scheme.flows pair.now.low) (A.Scheme.bits pair.now.low) (B.Scheme.flows pair.now.high) (B.Scheme.bits pair.now.high) }
    ensures joins { ⟦<Pair<A, B> as Scheme>⟧.joins pair.now ≡ pair_joins (A.Scheme.joins pair.now.low) (A.Scheme.bits pair.now.low) (B.Scheme.joins pair.now.high) (B.Scheme.bits pair.now.high) }
    ensures bits { ⟦<Pair<A, B> as Scheme>⟧.bits pair.now ≡ pair_bits (A.Scheme.bits pair.now.low) (B.Scheme.bits pair.now.high) }
{}

/// A capped scheme is the scheme that the definitions tell, of the scheme that it holds and its code.
pub fn cap_is_defined<S: Scheme>(cap: &Cap<S>)
    ensures flows { ⟦<Cap<S> as Scheme>⟧.flows cap.now ≡ cap_flows (S.Scheme.flows cap.now.scheme) cap.now.code }
    ensures joins { ⟦<Cap<S> as Scheme>⟧.joins cap.now ≡ cap_joins (S.Scheme.flows cap.now.scheme) (S.Scheme.joins cap.now.scheme) cap.now.code }
    ensures bits { ⟦<Cap<S> as Scheme>⟧.bits cap.now ≡ S.Scheme.bits cap.now.scheme }
{}

/// Topics are the scheme that the definitions tell.
pub fn topics_are_defined(topics: &Topics)
    ensures flows { ⟦<Topics as Scheme>⟧.flows topics.now ≡ topics_flows topics.now.topics }
    ensures joins { ⟦<Topics as Scheme>⟧.joins topics.now ≡ topics_joins topics.now.topics }
    ensures bits { ⟦<Topics as Scheme>⟧.bits topics.now ≡ topics.now.topics }
{}

/// A house is the scheme that the definitions tell.
pub fn house_is_defined(house: &House)
    ensures flows { ⟦<House as Scheme>⟧.flows house.now ≡ house_flows house.now.principals }
    ensures joins { ⟦<House as Scheme>⟧.joins house.now ≡ house_joins house.now.principals }
    ensures bits { ⟦<House as Scheme>⟧.bits house.now ≡ house_bits house.now.principals }
{}

/// One label of topics is at or below another if each of its topics is in the other; a join has the topics of both.
pub fn topics_are_bitwise()
    ensures { TopicsBitwise }
{}

/// One label of a house is at or below another if whomever an owner bars by the first he bars by the second; by a join he bars those whom he bars by either.
pub fn house_is_bitwise()
    ensures { HouseBitwise }
{}

/// One label of a ladder is at or below another if it is no larger or the other is at the top; a join is the larger, up to the top.
pub fn ladder_in_words()
    ensures { LadderInWords }
{}

/// One label of a pair is at or below another if both its parts are, and a join has the joins of the parts; where the widths add up to more than 64, all labels mean the same.
pub fn pair_in_words()
    ensures { PairInWords }
{}

/// Under a cap every label is at or below the cap; those at or below it in the scheme are ordered and joined as there, and the others mean the same as the cap.
pub fn cap_in_words()
    ensures { CapInWords }
{}
