//! The systems of these tests, as texts.

/// The texts of a system.
#[derive(Clone, Copy)]
pub struct System {
    pub table: &'static str,
    pub policy: &'static str,
}

/// The example of that name: thread 2 on core 1 may signal the notification, and thread 3 on core 0 may take its word.
pub const TWO_CORES: System = System {
    table: TWO_CORES_TABLE,
    policy: TWO_CORES_POLICY,
};

/// The example of that name: threads 1 to 8 on cores 0 to 7, which share a CNode.
pub const EIGHT_CORES: System = System {
    table: EIGHT_CORES_TABLE,
    policy: ONE_LABEL_POLICY,
};

const TWO_CORES_TABLE: &str = "\
confine-table 1
label a
label b
cnode ca a 0x1000 1
cnode cb b 0x1040 1
tcb ta a 0x2000 ready
tcb tb b 0x2400 ready
notification n b 0x3000
context xa a 0x4000 1 10 10
context xb b 0x4100 0 10 10
cap ca.0 n w 4
cap cb.0 n r 0
cap ta.root ca 63 0x0
cap tb.root cb 63 0x0
bind ta xa
bind tb xb
end
";

const TWO_CORES_POLICY: &str = "\
confine-policy 1
edge a reset b
edge a notify b
edge a space a
edge a derive a
edge a runs a
edge b reset b
edge b await b
edge b space b
edge b derive b
edge b runs b
end
";

/// A policy of one label, with each kind of authority over itself.
const ONE_LABEL_POLICY: &str = "\
confine-policy 1
edge a control a
edge a reset a
edge a send a
edge a receive a
edge a grant a
edge a call a
edge a notify a
edge a await a
edge a read a
edge a write a
edge a reply a
edge a context a
edge a space a
edge a derive a
edge a runs a
edge a holds a
end
";

const EIGHT_CORES_TABLE: &str = "\
confine-table 1
label a
cnode c a 0x2000 6
tcb t0 a 0x10000 ready
tcb t1 a 0x10400 ready
tcb t2 a 0x10800 ready
tcb t3 a 0x10c00 ready
tcb t4 a 0x11000 ready
tcb t5 a 0x11400 ready
tcb t6 a 0x11800 ready
tcb t7 a 0x11c00 ready
context x0 a 0x20000 0 10 10
context x1 a 0x20100 1 10 10
context x2 a 0x20200 2 10 10
context x3 a 0x20300 3 10 10
context x4 a 0x20400 4 10 10
context x5 a 0x20500 5 10 10
context x6 a 0x20600 6 10 10
context x7 a 0x20700 7 10 10
endpoint e a 0x3000
untyped u a 0x40000 16
cap c.0 u
cap c.1 c 58 0x0
cap c.2 e rwgy 0
cap t0.root c 58 0x0
cap t1.root c 58 0x0
cap t2.root c 58 0x0
cap t3.root c 58 0x0
cap t4.root c 58 0x0
cap t5.root c 58 0x0
cap t6.root c 58 0x0
cap t7.root c 58 0x0
child c.1 t0.root
child c.1 t1.root
child c.1 t2.root
child c.1 t3.root
child c.1 t4.root
child c.1 t5.root
child c.1 t6.root
child c.1 t7.root
bind t0 x0
bind t1 x1
bind t2 x2
bind t3 x3
bind t4 x4
bind t5 x5
bind t6 x6
bind t7 x7
end
";
