use mvt_gate::EngineFault;

/// Each fault and its text.
const TEXTS: [(EngineFault, &str); 7] = [
    (EngineFault::Read, "mvtgate: cannot read the input"),
    (
        EngineFault::TooLarge,
        "mvtgate: the input is larger than 67108864 bytes",
    ),
    (EngineFault::Write, "mvtgate: cannot write the output"),
    (EngineFault::NotJson, "mvtgate: the fault file is not JSON"),
    (
        EngineFault::NotAFault,
        "mvtgate: the fault file holds no fault",
    ),
    (
        EngineFault::FaultRange,
        "mvtgate: a number of the fault is out of range",
    ),
    (EngineFault::Memory, "mvtgate: out of memory"),
];

/// Whether this is the fault's text.
fn is_text(rt: &HostRuntime, fault: EngineFault, text: &str) -> bool {
    match fault.to_string(rt.alloc()) {
        Ok(shown) => shown.as_str() == text,
        Err(_) => false,
    }
}

#[test]
fn reports_each_fault(rt: HostRuntime) {
    for (fault, text) in TEXTS {
        assert!(rt; is_text(&rt, fault, text), "for {text}");
    }
}
