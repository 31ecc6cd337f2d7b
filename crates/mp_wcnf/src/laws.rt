ghost use Rattle.mp_wcnf.specs.Refusals.{OneMeaning};

/// A text denotes one instance at most. For all limits it either denotes one within them or is refused, and in one way.
pub fn one_meaning()
    ensures { OneMeaning }
{}
