// The known answers as one theorem, with no code, over one list.
ghost use Rattle.known_answers.specs.Known.{AllKnown, known_answer_list};

/// The steps over each string of the list come to the length, the taps, the count and the other register that are known.
pub fn known_answers()
    ensures { AllKnown known_answer_list }
{}
