// The theorem between the form of a sheet and its reading.
ghost use Rattle.sheet.specs.Exact.{ReadsExactly};

/// The reading of this sheet answers tasks exactly where the sheet has the form with those tasks.
#[tactic(auto, using(crate::proofs::Agrees::reads_exactly))]
pub fn reading_is_exact(sheet: &[u8])
    ensures { ReadsExactly sheet.now }
{}
