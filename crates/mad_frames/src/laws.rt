//! What is true of frames and of devices that send only what changes, whatever is done with them: functions that do nothing, each of which states its law.

ghost use Rattle.mad_frames.specs.FrameLaws.{StaysInStep};
ghost use Rattle.mad_frames.specs.SparingLaws.{ShowsWhatWasPut};

/// A frame stays in step with its terminal over any drawings and presents, whatever these answered. After a present that
/// answered Ok, the terminal shows it.
pub fn frames_stay_in_step()
    ensures { StaysInStep }
{}

/// After a flush without a fault of a device that sends only what changes, a terminal that scrolls and has read what the device below took shows what the
/// plain terminal shows of what was put, since something was passed on as it is.
pub fn sparing_shows_what_was_put()
    ensures { ShowsWhatWasPut }
{}
