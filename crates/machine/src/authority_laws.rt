//! Laws on the authority that capabilities give.
ghost use Rattle.std.specs.Prelude.{ℕ, ◌≡◌, false, true};
ghost use Rattle.base.specs.{declared.kind.Kind.Kind, Kinds.is_structural};
ghost use Rattle.machine.specs.{declared.cap.{Badged.Badged, Detail.Detail, Guard.Guard}, Authority.HasAuthority};
ghost use Rattle.machine.specs.{Capabilities.gives, Layout.Layout, Machine.Machine, Narrower.{HasMoreCaps, IsNarrower}};
ghost use Rattle.machine.specs.declared.cap.Detail.TheVariants as d;

/// A law: a capability with fewer rights gives no kind of authority that one with more doesn't give.
///
/// Badges and guards don't matter. Every capability in a CNode gives at least one kind of authority
/// that isn't structural, and none that is.
pub fn rights_alone_decide_kinds()
    ensures fewer { (few many : Detail) (k : Kind)
        → IsNarrower few many
        → gives few k ≡ true
        → gives many k ≡ true }
    ensures badges { (end : Badged) (badge : ℕ) (k : Kind)
        → (gives (d.Endpoint (record end { badge = badge })) k ≡ gives (d.Endpoint end) k)
        × (gives (d.Notification (record end { badge = badge })) k ≡ gives (d.Notification end) k) }
    ensures guards { (one other : Guard) (k : Kind) → gives (d.CNode one) k ≡ gives (d.CNode other) k }
    ensures some { (detail : Detail) → (k : Kind) × (is_structural k ≡ false) × (gives detail k ≡ true) }
    ensures no_structure { (detail : Detail) (k : Kind) → is_structural k ≡ true → gives detail k ≡ false }
{}

/// A law: a machine with more capabilities holds no less authority.
pub fn authority_grows_with_capabilities()
    ensures { (t : Layout) (m more : Machine) (from : ℕ) (k : Kind) (to : ℕ)
        → HasMoreCaps m more
        → HasAuthority t m from k to
        → HasAuthority t more from k to }
{}
