//! A disk: a file's octets, and what a crash at any moment may leave of them.
ghost use Rattle.std.specs.Prelude.{◌≡◌, ◌≤◌, ◌<◌, ◌↔◌, ◌+◌, ◌^◌, ℕ, List, Option, Some, length, take, drop, option_map, IfOk, OnOk, OnErr, IfSome, IsSome};
ghost use Rattle.echo_base.specs.Outside.{Rose};
ghost use Rattle.store_disk.specs.Disk.{written_at, Torn, Follows, Among, Elapses};

/// A call of the disk failed.
#[derive(Clone, Copy, Debug, PartialEq, Eq)]
pub struct DiskFault;

/// A file of octets that a crash at any moment may cut short. An image is a file that a crash may leave. Clauses on content say
/// something, and conditions on the length are owed, where the disk tells its octets.
pub trait Disk {
    /// The octets that reads give, where the disk tells them.
    ghost bytes: { Self → Option (List ℕ) };

    /// A count of faults, which never falls.
    ghost faults: { Self → ℕ };

    /// The moment, as a number that never falls.
    ghost moment: { Self → ℕ };

    /// The images: what a crash at this moment may leave.
    ghost may_leave: { Self → List ℕ → Type 0 };

    /// What a crash at some moment since that one may have left, during a call or between two.
    ghost left_since: { Self → ℕ → List ℕ → Type 0 };

    /// How many octets there are. It changes nothing.
    fn len(&mut self) -> Result<u64, DiskFault>
        ensures length { IfOk result (λ n. IfSome (bytes self.old) (λ octets. n ≡ length octets)) }
        ensures bytes { bytes self.new ≡ bytes self.old }
        ensures images { Among (may_leave self.old) (may_leave self.new) }
        ensures time { Elapses (moment self.old) (moment self.new) (left_since self.old) (left_since self.new) (may_leave self.new) }
        ensures image { IfSome (bytes self.new) (may_leave self.new) }
        ensures count { faults self.old ≤ faults self.new }
        ensures failed { OnErr result (Rose (faults self.old) (faults self.new)) };

    /// Fills `into` with the octets from `at` on. It changes nothing.
    fn read_at(&mut self, at: u64, into: &mut [u8]) -> Result<(), DiskFault>
        requires { IfSome (bytes self.old) (λ octets. at + length into.old ≤ length octets) }
        ensures read { OnOk result (IfSome (bytes self.old) (λ octets. into.new ≡ take (length into.old) (drop at octets))) }
        ensures bytes { bytes self.new ≡ bytes self.old }
        ensures images { Among (may_leave self.old) (may_leave self.new) }
        ensures time { Elapses (moment self.old) (moment self.new) (left_since self.old) (left_since self.new) (may_leave self.new) }
        ensures image { IfSome (bytes self.new) (may_leave self.new) }
        ensures count { faults self.old ≤ faults self.new }
        ensures failed { OnErr result (Rose (faults self.old) (faults self.new)) };

    /// Writes octets over those from `at` on, and past the end. Until a sync, a crash may leave any octets in their place.
    fn write_at(&mut self, at: u64, piece: &[u8]) -> Result<(), DiskFault>
        requires place { IfSome (bytes self.old) (λ octets. at ≤ length octets) }
        requires end { at + length piece.now < 2 ^ 63 }
        ensures written { OnOk result (bytes self.new ≡ option_map (written_at at piece.now) (bytes self.old)) }
        ensures tells { IsSome (bytes self.new) ↔ IsSome (bytes self.old) }
        ensures images { Follows (Torn at (length piece.now)) (may_leave self.old) (may_leave self.new) }
        ensures time { Elapses (moment self.old) (moment self.new) (left_since self.old) (left_since self.new) (may_leave self.new) }
        ensures image { IfSome (bytes self.new) (may_leave self.new) }
        ensures count { faults self.old ≤ faults self.new }
        ensures failed { OnErr result (Rose (faults self.old) (faults self.new)) };

    /// Brings what was written onto the disk: after `Ok` a crash leaves what reads give.
    fn sync(&mut self) -> Result<(), DiskFault>
        ensures bytes { bytes self.new ≡ bytes self.old }
        ensures durable { OnOk result ((image : List ℕ) → may_leave self.new image → bytes self.new ≡ Some image) }
        ensures images { Among (may_leave self.old) (may_leave self.new) }
        ensures time { Elapses (moment self.old) (moment self.new) (left_since self.old) (left_since self.new) (may_leave self.new) }
        ensures image { IfSome (bytes self.new) (may_leave self.new) }
        ensures count { faults self.old ≤ faults self.new }
        ensures failed { OnErr result (Rose (faults self.old) (faults self.new)) };

    /// This moment is one of those since an earlier one.
    ghost counts_now: { (disk : Self) (t : ℕ) (image : List ℕ) → t ≤ moment disk → may_leave disk image → left_since disk t image };

    /// Since this moment there is no other.
    ghost only_now: { (disk : Self) (image : List ℕ) → left_since disk (moment disk) image → may_leave disk image };
}
