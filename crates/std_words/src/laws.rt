ghost use Rattle.std_words.specs.Laws.{AFaultEnds, WhatIsFoundGoesOn, StepsGroup};

/// Steps that may find a fault: the first fault ends them, and they may be put in groups in any way.
pub fn steps_group()
    ensures ends { AFaultEnds }
    ensures goes_on { WhatIsFoundGoesOn }
    ensures group { StepsGroup }
{}
