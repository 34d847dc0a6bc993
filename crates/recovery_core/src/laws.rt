// Laws of what devices stand for, as calls with nothing to do.
ghost use Rattle.std.specs.Prelude.{◌≡◌, ℕ};
ghost use Rattle.std.specs.FinMap.{get};
ghost use Rattle.outside.specs.declared.device.Device.{Device};
ghost use Rattle.serial_model.specs.State.{State};
ghost use Rattle.serial_model.specs.declared.key.Key.{Key};
ghost use Rattle.recovery_core.specs.Damage.{IsDamagedIn};
ghost use Rattle.joint_crashes.specs.Images.{Images};
ghost use Rattle.recovery_core.specs.Recoverable.{Reading, IsReading, IsRecoverable};

/// Devices stand for one epoch and one state at most, or are damaged at one byte of one device; never both.
pub fn one_recoverable()
    ensures reading { (found : Images) (a b : Reading) → IsReading found a → IsReading found b → a ≡ b }
    ensures state { (found : Images) (e f : ℕ) (s t : State) → IsRecoverable found e s → IsRecoverable found f t
        → (e ≡ f) × ((key : Key) → get s key ≡ get t key) }
    ensures stands { (found : Images) (reading : Reading) (device : Device) (at : ℕ)
        → IsReading found reading → IsDamagedIn found device at → ⊥ }
    ensures damage { (found : Images) (d e : Device) (a b : ℕ)
        → IsDamagedIn found d a → IsDamagedIn found e b → (d ≡ e) × (a ≡ b) }
{}
