//! The law on boot states.
ghost use Rattle.std.specs.Prelude.{◌≡◌};
ghost use Rattle.machine.specs.{Boot.IsBoot, Layout.Layout, Machine.Machine};

/// A law: each capability table has one boot state.
pub fn each_table_has_one_boot_state()
    ensures exists { (t : Layout) → (m : Machine) × IsBoot t m }
    ensures one { (t : Layout) (m n : Machine) → IsBoot t m → IsBoot t n → m ≡ n }
{}
