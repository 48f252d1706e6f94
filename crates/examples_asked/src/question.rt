//! A question in Markdown. Its answer is read from standard input.
use std::io::{self, Read};
use termimad::{AskError, MadSkin, Question, Stream};

pub fn run<R: Read + Drop>(rt: &HostRuntime, input: R) -> Result<(), AskError> {
    let alloc = rt.alloc();
    let mut question = Question::new(alloc, "Which **tea** is it to be?")?;
    question.add_answer(alloc, "a", "Assam, *strong*")?;
    question.add_answer(alloc, "d", "Darjeeling, *light*")?;
    question.add_answer(alloc, "n", "none")?;
    question.set_default(alloc, "d")?;
    let skin = MadSkin::no_style();
    let mut reader = Stream::new(input);
    let mut writer = Stream::new(io::writer(rt));
    let answer = question.ask(alloc, &skin, Some(40), &mut reader, &mut writer)?;
    println!(rt; "The answer is {answer}.")?;
    Ok(())
}
