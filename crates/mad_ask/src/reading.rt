//! Reading lines until one decides.

ghost use Rattle.mad_ask.specs.Reading.{ReadsAnswer};
ghost use Rattle.mad_ask.specs.Replies.{EndGives, Replies};

use crate::ask_error::AskError;
use crate::choices::Choices;
use mad_term::{Out, Source, put_all};
use std::alloc::Global;

impl Choices<'_> {
    ghost use Rattle.mad_ask.specs.Offers.{offered_by};

    /// Reads lines until one of them answers: a key, or an empty line where there is a default. The whitespace at a line's end doesn't count. The end of the
    /// input gives the default too. Of any other line it is said that it isn't understood.
    ///
    /// Bytes are read one at a time, and none after the newline of the answering line. The input is taken to end after 2^64 - 1 bytes. Nothing is flushed.
    ///
    /// # Errors
    ///
    /// A fault of the reader or of the writer; the end of the input where there is no default; a line that isn't UTF-8; or out of memory.
    pub fn read_answer<I: Source, O: Out>(
        &self,
        alloc: Global,
        reader: &mut I,
        writer: &mut O,
    ) -> Result<String, AskError>
        ensures { ReadsAnswer (offered_by self.now)
            (record { input = I.seen reader.old; output = O.seen writer.old }) result
            (record { input = I.seen reader.new; output = O.seen writer.new }) }
    {
        let mut line = Vec::new(alloc);
        for _read in 0..u64::MAX {
            let Some(byte) = reader.get()? else {
                return self.end(alloc, writer, line.as_slice());
            };
            line.push(byte)?;
            if byte == b'\n' {
                if let Some(answer) = self.reply(alloc, writer, line.as_slice())? {
                    return Ok(answer);
                }
                line.clear();
            }
        }
        self.end(alloc, writer, line.as_slice())
    }

    // What the end of the input answers, after a last line that has no newline, if it isn't empty.
    fn end<O: Out>(&self, alloc: Global, writer: &mut O, line: &[u8]) -> Result<String, AskError>
        ensures { EndGives (offered_by self.now) line.now (O.seen writer.old) result (O.seen writer.new) }
    {
        if !line.is_empty() {
            if let Some(answer) = self.reply(alloc, writer, line)? {
                return Ok(answer);
            }
        }
        match self.default_answer {
            Some(default) => Ok(String::from_str(alloc, default)?),
            None => Err(AskError::EndOfInput),
        }
    }

    // The answer that a line decides. Where it decides none, that is said.
    fn reply<O: Out>(
        &self,
        alloc: Global,
        writer: &mut O,
        line: &[u8],
    ) -> Result<Option<String>, AskError>
        ensures { Replies (offered_by self.now) line.now (O.seen writer.old) result (O.seen writer.new) }
    {
        let Ok(text) = str::from_utf8(line) else {
            return Err(AskError::NotUtf8);
        };
        let text = text.trim_end();
        if let Some(answer) = self.decide(text) {
            return Ok(Some(String::from_str(alloc, answer)?));
        }
        let complaint = format!(in alloc; "answer \"{text}\" not understood\n")?;
        put_all(writer, complaint.as_bytes())?;
        Ok(None)
    }
}
