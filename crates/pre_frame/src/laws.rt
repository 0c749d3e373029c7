ghost use Rattle.std.specs.Prelude.{◌≡◌, ◌≢◌, ℕ, ◌^◌, ◌<◌, All, length};
ghost use Rattle.pre_frame.specs.Layout.{IsFrameSize, frame_of};
ghost use Rattle.pre_frame.specs.FrameFields.{IsFrame};
ghost use Rattle.pre_frame.specs.Built.{fields_built, frame_number};

use pre_crc::checks_law;

/// Frames as they are built have their size, are read as the fields that they were built from, and
/// carry their number; so frames of two numbers differ.
pub fn built_law()
    ensures size { (destination source prio vid number size : ℕ) → IsFrameSize size
        → length (frame_of destination source prio vid number size) ≡ size }
    ensures fields { (destination source prio vid number size : ℕ) → prio < 8 → vid < 2 ^ 12 → IsFrameSize size
        → IsFrame (fields_built destination source prio vid number size) (frame_of destination source prio vid number size) }
    ensures octets { (destination source prio vid number size : ℕ)
        → All (λ octet. octet < 256) (frame_of destination source prio vid number size) }
    ensures number { (destination source prio vid number size : ℕ) → number < 2 ^ 32
        → frame_number (frame_of destination source prio vid number size) ≡ number }
    ensures differ { (destination source prio vid number size destination' source' prio' vid' number' size' : ℕ)
        → number < 2 ^ 32 → number' < 2 ^ 32 → number ≢ number'
        → frame_of destination source prio vid number size ≢ frame_of destination' source' prio' vid' number' size' }
{
    checks_law();
}
