// The call of a line.
use group::Group;

// What a line is about.
#[derive(Clone, Copy)]
enum Task {
    Encode,
    Help,
    Recover,
    Repair,
    Write,
    Judge,
}

// The first letter of the line's first word tells it.
fn task_of(line: &[u8]) -> Task {
    match lines::byte(line, 3) {
        b'f' => Task::Encode,
        b'h' => Task::Help,
        b'n' => Task::Recover,
        b'l' => Task::Repair,
        b'p' => Task::Write,
        _ => Task::Judge,
    }
}

// What comes out of a line's call, with its two ids: a count, or a refusal's number. The lost node is node 2, and the batch is 7.
fn called(line: &[u8], g: Group, a: usize, b: usize, from: &[u8], made: &mut [u8]) -> usize {
    lines::outcome(match task_of(line) {
        Task::Encode => store::encoding::encode(g, a, from, made),
        Task::Help => store::helping::help(g, 2, a, b, from, made),
        Task::Recover => store::recovery::recover(g, &[a, b], made),
        Task::Repair => store::repairing::repair(g, 2, &[a, b], made),
        Task::Write => share::write(g, a, 7, from, made),
        Task::Judge => Ok(judged_words::number(share::judge(from))),
    })
}

// The same in [3,2,2]. It is handed the first letters of the memory, and puts what it makes into `made`.
pub fn call(line: &[u8], l: usize, memory: &[u8], made: &mut [u8]) -> usize {
    let a = marks::number(line, b'@', 0);
    let b = marks::number(line, b'@', 1);
    let from = marks::handed(line, memory);
    called(line, group::of(3, 2, 2, l), a, b, from, made)
}

// The index of the first byte that can't stand, where a line judges bytes; else 0, which a line without a second `=` asks for.
pub fn place(line: &[u8], memory: &[u8]) -> usize {
    match task_of(line) {
        Task::Judge => judged_words::place(share::judge(marks::handed(line, memory))),
        _ => 0,
    }
}
