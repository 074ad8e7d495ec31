//! Laws of landmark values in a text, proved for all of them. The functions do nothing.
ghost use Rattle.landmarks.specs.Laws.{KeptOnesAreSorted};

/// What a text may have of zones and values can be tested: the numbers of each zone ascend, and there are not too many shares.
pub fn kept_landmarks_are_sorted()
    ensures { KeptOnesAreSorted }
{}
