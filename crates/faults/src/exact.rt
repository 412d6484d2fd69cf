// The theorem between what is wrong with a sheet and its reading.
ghost use Rattle.faults.specs.Exact.{FaultsExactly};

/// The reading of this sheet stops with a fault exactly where that is what is wrong with it.
#[tactic(auto, using(crate::proofs::Agrees::faults_exactly))]
pub fn faults_are_exact(sheet: &[u8])
    ensures { FaultsExactly sheet.now }
{}
