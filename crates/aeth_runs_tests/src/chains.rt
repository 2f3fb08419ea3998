//! Worked chains, computed by the definitions.
ghost use Rattle.aeth_runs_tests.specs.Chains.{AllAreLeft, AllLand, LeastRateIsLater, OneIsLeft, OneLeg};

/// A chain of two channels over 30, 13 and 12 cycles; one of a single channel; and one of three, whose
/// least rate isn't that of the first.
pub fn chains()
    ensures all_land { AllLand }
    ensures one_is_left { OneIsLeft }
    ensures all_are_left { AllAreLeft }
    ensures one_leg { OneLeg }
    ensures least_rate_is_later { LeastRateIsLater }
{}
