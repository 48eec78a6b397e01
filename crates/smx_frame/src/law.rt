//! What a framer's calls come to, over a whole stream.
ghost use Rattle.smx_frame.specs.Calls.{StreamLaw};

/// Over any calls the octets fed are the PDUs handed out and then the rest; a stream is read in one
/// way, however it was cut; and none goes on behind a bad length.
pub fn stream_law()
    ensures { StreamLaw }
{}
