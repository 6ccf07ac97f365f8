//! Laws on what may change and what may shrink if only some labels act.
ghost use Rattle.std.specs.Prelude.{ℕ, ◌≡◌, ◌⊎◌, true};
ghost use Rattle.base.specs.declared.kind.Kind.{Kind};
ghost use Rattle.base.specs.declared.kind.Kind.TheVariants as authority;
ghost use Rattle.policy.specs.{Change.{ActorTest, MayChange, is_changing}, Closing.IsWithin, Domain.EdgeTest};
ghost use Rattle.policy.specs.{Cut.IsCut, Full.IsFull, NarrowTake.{HasNone, MaySendTo, MayShrink, is_removed, is_waiting}};

/// A law: a label has full authority on each label whose objects it may change, whichever labels act.
///
/// It may change no fewer if the policy has more edges or more labels act; and a label that doesn't
/// act may change nothing.
pub fn what_may_be_changed_is_within_full_authority()
    ensures full { (test : EdgeTest) (acts : ActorTest) (a l : ℕ) → MayChange test acts a l → IsFull test a l }
    ensures grows { (test other : EdgeTest) (acts more : ActorTest)
        → IsWithin test other
        → ((x : ℕ) → acts x ≡ true → more x ≡ true)
        → (a l : ℕ) → MayChange test acts a l → MayChange other more a l }
    ensures acts { (test : EdgeTest) (acts : ActorTest) (a l : ℕ) → MayChange test acts a l → acts a ≡ true }
{}

/// A law: a label has cut or full authority on each label whose objects may shrink by what it does.
///
/// This holds whichever labels act. No less may shrink if the policy has more edges or more
/// labels act. Nothing shrinks by a label that doesn't act. By a label without an edge of control,
/// context or reply, nothing shrinks but the replies of labels to which it may send.
pub fn what_may_shrink_may_be_cut()
    ensures cut { (test : EdgeTest) (acts : ActorTest) (a l : ℕ) → MayShrink test acts a l
        → IsCut test a l ⊎ IsFull test a l }
    ensures grows { (test other : EdgeTest) (acts more : ActorTest)
        → IsWithin test other
        → ((x : ℕ) → acts x ≡ true → more x ≡ true)
        → (a l : ℕ) → MayShrink test acts a l → MayShrink other more a l }
    ensures acts { (test : EdgeTest) (acts : ActorTest) (a l : ℕ) → MayShrink test acts a l → acts a ≡ true }
    ensures replies { (test : EdgeTest) (acts : ActorTest) (a : ℕ)
        → HasNone test a authority.Control
        → HasNone test a authority.Context
        → HasNone test a authority.Reply
        → (l : ℕ) → MayShrink test acts a l → MaySendTo test a l }
    ensures nobody { (test : EdgeTest) (acts : ActorTest) (a : ℕ)
        → HasNone test a authority.Control
        → HasNone test a authority.Context
        → HasNone test a authority.Reply
        → HasNone test a authority.Send
        → (l : ℕ) → ¬ MayShrink test acts a l }
{}

/// A law: a label that acts may change objects of the labels that it reaches by one of these paths.
///
/// - its own label
/// - a label to which it has an edge of a kind that changes the object
/// - the label of a context, in a case of its own (`configures`, `binds`, `lends` and `returns`)
/// - labels whose threads wait where it sends, receives or notifies
/// - the replies of labels that receive its calls
/// - where labels that receive capabilities from it keep them
/// - labels whose threads called and are held by one of its replies.
pub fn changes_follow_paths()
    ensures own { (test : EdgeTest) (acts : ActorTest) (a : ℕ) → acts a ≡ true → MayChange test acts a a }
    ensures modifies { (test : EdgeTest) (acts : ActorTest) (a l : ℕ) (k : Kind)
        → acts a ≡ true
        → is_changing k ≡ true
        → test a k l ≡ true
        → MayChange test acts a l }
    ensures configures { (test : EdgeTest) (acts : ActorTest) (a l core : ℕ)
        → acts a ≡ true
        → test a authority.Context l ≡ true
        → test a authority.SchedControl core ≡ true
        → MayChange test acts a l }
    ensures binds { (test : EdgeTest) (acts : ActorTest) (a l thread : ℕ)
        → acts a ≡ true
        → test a authority.Context l ≡ true
        → test a authority.Control thread ≡ true
        → MayChange test acts a l }
    ensures lends { (test : EdgeTest) (acts : ActorTest) (a l endpoint receiver context owner reply : ℕ)
        → acts a ≡ true
        → test a authority.Runs l ≡ true
        → test a authority.Call endpoint ≡ true
        → test receiver authority.Receive endpoint ≡ true
        → acts receiver ≡ true
        → test receiver authority.Runs context ≡ true
        → test owner authority.Context context ≡ true
        → test receiver authority.Reply reply ≡ true
        → MayChange test acts a l }
    ensures returns { (test : EdgeTest) (acts : ActorTest) (a l context owner reply : ℕ)
        → acts a ≡ true
        → test a authority.Runs l ≡ true
        → test a authority.Runs context ≡ true
        → test owner authority.Context context ≡ true
        → test a authority.Reply reply ≡ true
        → MayChange test acts a l }
    ensures sends { (test : EdgeTest) (acts : ActorTest) (a l endpoint : ℕ)
        → acts a ≡ true
        → test a authority.Send endpoint ≡ true
        → test l authority.Receive endpoint ≡ true
        → acts l ≡ true
        → MayChange test acts a l }
    ensures receives { (test : EdgeTest) (acts : ActorTest) (a l endpoint : ℕ)
        → acts a ≡ true
        → test a authority.Receive endpoint ≡ true
        → test l authority.Send endpoint ≡ true
        → acts l ≡ true
        → MayChange test acts a l }
    ensures notifies { (test : EdgeTest) (acts : ActorTest) (a l notification : ℕ)
        → acts a ≡ true
        → test a authority.Notify notification ≡ true
        → test l authority.Await notification ≡ true
        → acts l ≡ true
        → MayChange test acts a l }
    ensures links { (test : EdgeTest) (acts : ActorTest) (a l endpoint receiver : ℕ)
        → acts a ≡ true
        → test a authority.Send endpoint ≡ true
        → test a authority.Call endpoint ≡ true
        → test receiver authority.Receive endpoint ≡ true
        → acts receiver ≡ true
        → test receiver authority.Reply l ≡ true
        → MayChange test acts a l }
    ensures grants { (test : EdgeTest) (acts : ActorTest) (a l endpoint receiver : ℕ)
        → acts a ≡ true
        → test a authority.Grant endpoint ≡ true
        → test receiver authority.Receive endpoint ≡ true
        → acts receiver ≡ true
        → test receiver authority.Control l ≡ true
        → MayChange test acts a l }
    ensures replies { (test : EdgeTest) (acts : ActorTest) (a l reply server endpoint : ℕ)
        → acts a ≡ true
        → test a authority.Reply reply ≡ true
        → test reply authority.Holds l ≡ true
        → test server authority.Reply reply ≡ true
        → acts server ≡ true
        → test server authority.Receive endpoint ≡ true
        → test l authority.Call endpoint ≡ true
        → acts l ≡ true
        → MayChange test acts a l }
{}

/// A law: objects of the labels that a label that acts reaches by one of these paths may shrink by what it does.
///
/// - the contexts that it has, and labels that run on them
/// - labels that may wait with one of its replies, and where such a label receives
/// - the replies of labels that receive from it
/// - what a label that it controls has an edge to, and labels that wait for what that label
///   may delete.
pub fn shrinks_follow_paths()
    ensures unbinds { (test : EdgeTest) (acts : ActorTest) (a l : ℕ)
        → acts a ≡ true
        → test a authority.Context l ≡ true
        → MayShrink test acts a l }
    ensures stops { (test : EdgeTest) (acts : ActorTest) (a l context : ℕ)
        → acts a ≡ true
        → test a authority.Context context ≡ true
        → test l authority.Runs context ≡ true
        → MayShrink test acts a l }
    ensures halts { (test : EdgeTest) (acts : ActorTest) (a l reply : ℕ)
        → acts a ≡ true
        → test a authority.Reply reply ≡ true
        → test reply authority.Holds l ≡ true
        → test l authority.Reply reply ≡ true
        → acts l ≡ true
        → MayShrink test acts a l }
    ensures ends { (test : EdgeTest) (acts : ActorTest) (a l reply receiver : ℕ)
        → acts a ≡ true
        → test a authority.Reply reply ≡ true
        → test receiver authority.Reply reply ≡ true
        → acts receiver ≡ true
        → test receiver authority.Receive l ≡ true
        → MayShrink test acts a l }
    ensures frees { (test : EdgeTest) (acts : ActorTest) (a l endpoint receiver : ℕ)
        → acts a ≡ true
        → test a authority.Send endpoint ≡ true
        → test receiver authority.Receive endpoint ≡ true
        → acts receiver ≡ true
        → test receiver authority.Reply l ≡ true
        → MayShrink test acts a l }
    ensures removes { (test : EdgeTest) (acts : ActorTest) (a l controlled : ℕ) (k : Kind)
        → acts a ≡ true
        → is_removed k ≡ true
        → test a authority.Control controlled ≡ true
        → test controlled k l ≡ true
        → MayShrink test acts a l }
    ensures releases { (test : EdgeTest) (acts : ActorTest) (a l caller : ℕ)
        → acts a ≡ true
        → test a authority.Control caller ≡ true
        → acts caller ≡ true
        → test l authority.Holds caller ≡ true
        → MayShrink test acts a l }
    ensures wakes { (test : EdgeTest) (acts : ActorTest) (a l controlled end : ℕ) (k : Kind)
        → acts a ≡ true
        → is_waiting k ≡ true
        → test a authority.Control controlled ≡ true
        → test controlled authority.Reset end ≡ true
        → test l k end ≡ true
        → acts l ≡ true
        → MayShrink test acts a l }
    ensures drops { (test : EdgeTest) (acts : ActorTest) (a l controlled endpoint receiver : ℕ)
        → acts a ≡ true
        → test a authority.Control controlled ≡ true
        → test controlled authority.Reset endpoint ≡ true
        → test receiver authority.Receive endpoint ≡ true
        → acts receiver ≡ true
        → test receiver authority.Reply l ≡ true
        → MayShrink test acts a l }
{}
