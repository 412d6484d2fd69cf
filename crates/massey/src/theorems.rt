// What holds of the steps: theorems with no code, which a caller knows from the call on.
ghost use Rattle.massey.specs.Theorems.{ShortestRegister, AnotherRegister, AnotherShortest, OtherRegister, ExpectedDigit, CountBounds, StateBounds};

/// The steps end with a shortest register for their string.
pub fn shortest_register()
    ensures { ShortestRegister }
{}

/// Another register of that length generates the string just where twice the length passes the string's.
pub fn another_register()
    ensures { AnotherRegister }
{}

/// The same of any shortest register.
pub fn another_shortest()
    ensures { AnotherShortest }
{}

/// The register of C + x^j · B is then such another, and first differs at tap j.
pub fn other_register()
    ensures { OtherRegister }
{}

/// One digit continues the string with no discrepancy.
pub fn expected_digit()
    ensures { ExpectedDigit }
{}

/// How many multiplications the steps count at most.
pub fn count_bounds()
    ensures { CountBounds }
{}

/// The cells and the bounds of a state.
pub fn state_bounds()
    ensures { StateBounds }
{}
