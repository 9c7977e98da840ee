use crate::lists::{Bytes, List};

/// The reply to a line: the version that it speaks of, where it looked at one, and its words.
#[derive(Debug, Drop, Clone, PartialEq, Eq)]
pub struct Reply {
    pub version: Option<u64>,
    pub body: Bytes,
}

/// The replies to the lines of one session, in the order of its lines.
pub type Transcript = List<Reply>;

/// Transcripts by sessions: at place k that of session k, empty where the session has no line.
pub type Transcripts = List<Transcript>;

#[cfg(test)]
mod tests {
    use super::*;
    use crate::words::word;
    use std::alloc::AllocError;

    #[test]
    fn keeps_replies_by_sessions(rt: HostRuntime) -> Result<(), AllocError> {
        let alloc = rt.alloc();
        let mut transcript = Transcript::new(alloc);
        transcript.push(Reply {
            version: Some(0),
            body: word(alloc, b"INSIDE")?,
        })?;
        let mut transcripts = Transcripts::new(alloc);
        transcripts.push(Transcript::new(alloc))?;
        transcripts.push(transcript)?;
        assert!(rt; transcripts.as_slice()[0].is_empty());
        assert_eq!(rt; transcripts.as_slice()[1].as_slice()[0].version, Some(0));
        Ok(())
    }
}
