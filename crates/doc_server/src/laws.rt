ghost use Rattle.doc_server.specs.declared.why.Why.{Why as End};
ghost use Rattle.doc_server.specs.Talk.{Faults};
ghost use Rattle.doc_server.specs.Program.{status_of, IsSureStatus, NoFault};

/// Over a console whose counts of faults stay 0 the status of a connection is 0, 6, 7, 9 or 10.
pub fn a_console_that_cannot_fail_has_no_fault()
    ensures { (why : End) → Faults why 0 0 0 0 → IsSureStatus (status_of why) }
{}

/// Over a keeper whose count of faults stays 0 no operation is replied a fault.
pub fn a_keeper_that_cannot_fail_has_no_fault()
    ensures { NoFault }
{}
