// Answers the stored questions on standard input by the library, one line each on standard output. The questions and
// the expected lines are made by the independent program.
#![tactic(auto)]

mod answers_btsnoop;
mod answers_btsnoop_writing;
mod answers_le;
mod answers_numbers;
mod answers_radiotap;
mod answers_radiotap_fields;
mod answers_radiotap_writing;
mod answers_stream;
mod answers_tally;
mod question_lines;

ghost use Rattle.std.specs.Prelude.{◌≡◌, length};

use question_lines::{Question, STANDARD_INPUT, STANDARD_OUTPUT};

fn main() {
    let mut space = room_for_all();
    let n = io::read_full(STANDARD_INPUT, &mut space);
    run(&space[..n]);
}

// Room for all questions. The `ensures` gives only its length, which lending it needs.
fn room_for_all() -> [u8; 131072]
    ensures { 131072 ≡ length result }
{
    [0; 131072]
}

// Answers question after question, as long as whole ones stand there.
fn run(input: &[u8]) {
    let mut left = input;
    while let Some((question, behind)) = Question::split_from(left) {
        answer(question);
        left = behind;
    }
}

// Answers one question on a line.
fn answer(question: Question) {
    io::print_decimal(STANDARD_OUTPUT, question.kind as u64);
    ask(question);
    io::write_all(STANDARD_OUTPUT, b"\n");
}

// Asks one kind after the other, until the question is one of its own; tells whether there is one.
fn ask(question: Question) -> bool {
    answers_btsnoop::answer(question)
        || answers_btsnoop_writing::answer(question)
        || answers_radiotap::answer(question)
        || answers_radiotap_fields::answer(question)
        || answers_radiotap_writing::answer(question)
        || answers_le::answer(question)
        || answers_tally::answer(question)
        || answers_stream::answer(question)
        || answers_numbers::answer(question)
}
