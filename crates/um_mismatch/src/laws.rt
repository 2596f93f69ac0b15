//! What the details of a shape's fault come to, as a contract of a function that does nothing.
ghost use Rattle.um_mismatch.specs.Laws.{FaultsAreTold};

/// If the first fault of a program is a node without a shape, it is that node of which something is told.
pub fn faults_are_told()
    ensures { FaultsAreTold }
{}
