//! Laws by counterexample: each reason of authority and each rule of policies is needed.
ghost use Rattle.std.specs.Prelude.{ℕ, ◌≡◌, ◌≢◌, None, Some, false, true};
ghost use Rattle.base.specs.declared.ids.{ObjId.ObjId as Id, SlotRef.SlotRef as Slot};
ghost use Rattle.machine.specs.declared.{call.Event.Event, cap.Cap.Cap, object.{Notification.Notification, Reply.Reply}};
ghost use Rattle.machine.specs.declared.thread.{Calling.Calling as Calls, Lent.Lent, Receiving.Receiving as Receives};
ghost use Rattle.machine.specs.{declared.thread.{Sending.Sending as Sends, Tcb.Tcb}, Authority.label_of};
ghost use Rattle.machine.specs.{Layout.Layout, Machine.{Machine, object_of, with_cap, with_parent}, WellFormed.kind_of};
ghost use Rattle.policy.specs.{Closed.MayBeGranted, Domain.{EdgeTest, IsInDomain}, Full.IsFull};
ghost use Rattle.policy.specs.Needed.{Rule, context_runs, control_gives_all, derive_by_grant, derive_in_domain};
ghost use Rattle.policy.specs.{Needed.{grant_shares, lent_runs, reply_holds, subjects_agree}, Policy.allows, Sharp.DerivesOn};
ghost use Rattle.policy.specs.Sharp.{GrantsDerive, KeeperTest, KeepersAreGranted, KeepersDerive, KeepersHaveAll, MayPut, Told, UsesFall};
ghost use Rattle.integrity.specs.{Allowed.IsAllowedStep, Confined.IsConfined, Keeping.MayKeep};
ghost use Rattle.verdict.specs.Counterexamples.{SharplyUnsafeWithout, TakesOut, UnallowedSignal, UnsafeWithout};
ghost use Rattle.base.specs.declared.kind.Kind.TheVariants as authority;
ghost use Rattle.machine.specs.declared.object.Object.TheVariants as o;
ghost use Rattle.machine.specs.declared.object.ObjectKind.TheVariants as kind;
ghost use Rattle.machine.specs.declared.object.ReplyState.TheVariants as answers;
ghost use Rattle.machine.specs.declared.thread.RunState.TheVariants as run;

/// A law: each reason of authority counts.
///
/// There is a confined state that isn't confined any more once a slot of a CNode, a thread's root
/// slot or the derivation tree is changed, and nothing else. There is one too for each link of an
/// object that gives authority:
///
/// - a thread runs on a context, or lent it
/// - a thread is a sender, may grant, or calls
/// - a thread is a receiver, or names a reply
/// - a thread waits for a notification
/// - a reply holds a thread that waits with it, or has called through it.
pub fn each_reason_of_authority_counts()
    ensures capability { (t : Layout) × (allowed : EdgeTest) × (m : Machine) × (slot : Slot) × (held : Cap)
        × (kind_of m slot.holder ≡ Some kind.CNode)
        × IsConfined t allowed m
        × ¬ IsConfined t allowed (with_cap m slot held) }
    ensures root { (t : Layout) × (allowed : EdgeTest) × (m : Machine) × (slot : Slot) × (held : Cap)
        × (kind_of m slot.holder ≡ Some kind.Tcb)
        × IsConfined t allowed m
        × ¬ IsConfined t allowed (with_cap m slot held) }
    ensures pair { (t : Layout) × (allowed : EdgeTest) × (m : Machine) × (slot : Slot) × (parent : Slot)
        × IsConfined t allowed m
        × ¬ IsConfined t allowed (with_parent m slot parent) }
    ensures runs { (thread : Tcb) × (context : Id)
        × TakesOut (o.Tcb (record thread { context = None })) (o.Tcb (record thread { context = Some context })) }
    ensures lent { (thread : Tcb) × (calling : Calls) × (lent : Lent)
        × TakesOut (o.Tcb (record thread { state = run.Called (record calling { lent = None }) }))
        (o.Tcb (record thread { state = run.Called (record calling { lent = Some lent }) })) }
    ensures send { (thread : Tcb) × (sending : Sends)
        × TakesOut (o.Tcb (record thread { state = run.Ready }))
        (o.Tcb (record thread { state = run.Sending (record sending { grant = false; is_call = false }) })) }
    ensures grant { (thread : Tcb) × (sending : Sends)
        × TakesOut (o.Tcb (record thread { state = run.Sending (record sending { grant = false }) }))
        (o.Tcb (record thread { state = run.Sending (record sending { grant = true }) })) }
    ensures call { (thread : Tcb) × (sending : Sends)
        × TakesOut (o.Tcb (record thread { state = run.Sending (record sending { is_call = false }) }))
        (o.Tcb (record thread { state = run.Sending (record sending { is_call = true }) })) }
    ensures receive { (thread : Tcb) × (receiving : Receives)
        × TakesOut (o.Tcb (record thread { state = run.Ready }))
        (o.Tcb (record thread { state = run.Receiving (record receiving { reply = None }) })) }
    ensures reply { (thread : Tcb) × (receiving : Receives) × (named : Id)
        × TakesOut (o.Tcb (record thread { state = run.Receiving (record receiving { reply = None }) }))
        (o.Tcb (record thread { state = run.Receiving (record receiving { reply = Some named }) })) }
    ensures awaits { (thread : Tcb) × (notification : Id)
        × TakesOut (o.Tcb (record thread { state = run.Ready }))
        (o.Tcb (record thread { state = run.Waiting notification })) }
    ensures waiting { (answer : Reply) × (thread : Id)
        × TakesOut (o.Reply (record answer { state = answers.Free }))
        (o.Reply (record answer { state = answers.Waiting thread })) }
    ensures called { (answer : Reply) × (thread : Id)
        × TakesOut (o.Reply (record answer { state = answers.Free }))
        (o.Reply (record answer { state = answers.Called thread })) }
{}

/// A law: a signal needs authority.
///
/// No step is allowed that changes the word of a notification on whose label the caller's label
/// doesn't have full authority. There is a signal that is done, from the boot state of a lawful
/// table, and isn't allowed by a policy without the edge for it.
pub fn a_signal_needs_authority()
    ensures word { (t : Layout) (allowed : EdgeTest) (m next : Machine) (event : Event)
        → (id : Id) (old new : Notification) (caller label : ℕ)
        → object_of m id ≡ Some (o.Notification old)
        → object_of next id ≡ Some (o.Notification new)
        → new.pending ≢ old.pending
        → label_of t m event.thread ≡ Some caller
        → label_of t m id ≡ Some label
        → ¬ IsFull allowed caller label
        → ¬ IsAllowedStep t allowed m event next }
    ensures signal { UnallowedSignal }
{}

/// A law: safety needs that labels of one domain may do the same (the rule P1).
///
/// There is a system whose policy obeys all other rules of closed policies and whose boot state is
/// confined, and which isn't safe.
pub fn safety_needs_agreeing_subjects()
    ensures { UnsafeWithout subjects_agree }
{}

/// A law: safety needs that control gives all (the rule P2).
///
/// There is a system that breaks no other rule and whose boot state is confined. A thread of it
/// makes an endpoint of untyped memory that its label controls, so that it can reset what it has no
/// edge for.
pub fn safety_needs_control_to_give_all()
    ensures { UnsafeWithout control_gives_all }
{}

/// A law: safety needs that who may be granted a label's capabilities may do what that label may (the rule P3).
///
/// There is a system that breaks no other rule and whose boot state is confined. A thread of it
/// sends another a capability, so that the other's label can do what it has no edge for.
pub fn safety_needs_grants_to_share()
    ensures { UnsafeWithout grant_shares }
{}

/// A law: P5 is needed, as far as it says that what may be granted may be derived.
///
/// There is a system that breaks no other rule, in whose policy derive is transitive, and whose
/// boot state is confined. A thread of it sends another a capability, so that a label derives where
/// it has no edge for it.
pub fn safety_needs_derivation_over_grants()
    ensures { (system : UnsafeWithout derive_by_grant)
        × ((x middle y : ℕ)
        → allows system.edges x authority.Derive middle ≡ true
        → allows system.edges middle authority.Derive y ≡ true
        → allows system.edges x authority.Derive y ≡ true) }
{}

/// A law: P5 is needed, as far as it says that derive is transitive.
///
/// There is a system that breaks no other rule, in whose policy all that may be granted may be
/// derived, and whose boot state is confined. A thread of it copies a derived capability into
/// another label's CNode, so that a label derives where it has no edge for it.
pub fn safety_needs_transitive_derivation()
    ensures { (system : UnsafeWithout derive_by_grant)
        × ((x y giver taker : ℕ)
        → MayBeGranted (allows system.edges) giver taker
        → IsInDomain (allows system.edges) giver x
        → IsInDomain (allows system.edges) taker y
        → allows system.edges x authority.Derive y ≡ true) }
{}

/// A law: safety needs that a reply may hold who uses it (the rule P7).
///
/// There is a system that breaks no other rule and whose boot state is confined. A thread of it
/// receives with a reply, which then holds the thread where its label has no edge for it.
pub fn safety_needs_replies_to_hold()
    ensures { UnsafeWithout reply_holds }
{}

/// A law: safety needs that who may bind a context may run on it (the rule P6).
///
/// There is a system that breaks no other rule and whose boot state is confined. A thread of it
/// binds another label's context to a second thread, which then runs on it where its label has no
/// edge for it.
pub fn safety_needs_contexts_to_run()
    ensures { UnsafeWithout context_runs }
{}

/// A law: safety needs that who may be lent a context may run on it (the rule P8).
///
/// There is a system that breaks no other rule and whose boot state is confined. A thread of it
/// calls another that waits without a context, which then runs on the caller's where its label has
/// no edge for it.
pub fn safety_needs_lenders_to_share()
    ensures { UnsafeWithout lent_runs }
{}

/// A law: safety needs each sharp rule except S4, which follows from others.
///
/// For each of the rules S1 to S3 and S5 to S8 there is a system that isn't safe, though its policy
/// obeys all other sharp rules and its boot state is confined. The keepers are the labels that may
/// keep. There is one for S1 that obeys the second half of S1, by which uses fall. There is one for
/// each half of S5 that obeys the other half.
pub fn sharp_safety_needs_each_rule()
    ensures each { (rule : Rule) → rule ≢ derive_in_domain → SharplyUnsafeWithout rule }
    ensures rise { (system : SharplyUnsafeWithout subjects_agree)
        × UsesFall (allows system.edges) (MayKeep system.t (allows system.edges)) }
    ensures granted { (system : SharplyUnsafeWithout derive_by_grant) × DerivesOn (allows system.edges) }
    ensures transitive { (system : SharplyUnsafeWithout derive_by_grant)
        × GrantsDerive (allows system.edges) (MayKeep system.t (allows system.edges)) }
{}

/// A law: S4 follows from S2 and S5, and the second half of S1 from its part for control, S2 and S3.
///
/// This is so for each policy and each test of keepers. For the half of S1, the test must hold of
/// each label that a keeper controls.
pub fn sharp_rules_that_follow()
    ensures derive { (test : EdgeTest) (keeps : KeeperTest)
        → KeepersHaveAll test (Told keeps)
        → GrantsDerive test (Told keeps)
        → KeepersDerive test (Told keeps) }
    ensures fall { (test : EdgeTest) (keeps : KeeperTest)
        → KeepersHaveAll test (Told keeps)
        → KeepersAreGranted test (Told keeps)
        → ((a b : ℕ) → MayPut test (Told keeps) a b → keeps b ≡ true)
        → ((a b to : ℕ) → MayPut test (Told keeps) a b
        → test a authority.Control to ≡ true
        → test b authority.Control to ≡ true)
        → UsesFall test (Told keeps) }
{}
