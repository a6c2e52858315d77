// The night desk: document 01's examples P1 to P12 (docs/SCHEME.md, 12), run through the public calls. The text below has them as they are
// written. `<` stands before a letter that is handed in, `>` before one that must come out (`>` alone: a zero that isn't shown), `=` before the
// count, the refusal and its place, or the number of bytes that must come out, `@` before an id, a rank, or a number of bytes that is handed in.
// Each line is run and compared, and the last one says how many agree.
#![tactic(auto)]

mod turn;

// Runs the lines one after another, on one memory: what a line leaves there is still there for the next. From P8 on, L is 1.
fn run(text: &[u8]) {
    let mut memory = [0u8; 82];
    let mut agreed = 0;
    for n in 0..16 {
        let line = lines::line(text, n);
        marks::read(line, b'<', &mut memory);
        let before = memory;
        let made = lines::part_mut(&mut memory, 0, lines::count(line, b'>'));
        let number = turn::call(line, if n < 9 { 2 } else { 1 }, &before, made);
        let place = turn::place(line, &before);
        if marks::compare(line, number, place, &memory) {
            agreed += 1;
        }
    }
    marks::tell(text, 16, &[agreed, agreed / 16]);
}

fn main() {
    run(
        b"P1 file <01 <02 <10 <20 <40 <80, node @1: >11 >22, >50 >a0
P2 file <01 <02 <10 <20 <40 <80, node @2: >01 >12 >20, >10 >60 >80
P3 file <01 <02 <10 <20 <40 <80, node @3: >01 >02 >10 >20, >10 >20 >40 >80
P4 nodes @3,@1: buffer <01 <02 <10 <20 <50 <a0 becomes >01 >02 >10 >20 >40 >80, count =2
P5 nodes @2,@1: buffer <01 <12 <10 <60 <50 <a0 becomes >01 >02 >10 >20 >40 >80, count =4
P6 nodes @3,@2: buffer <01 <02 <10 <20 <60 <80 becomes >01 >02 >10 >20 >40 >80, count =1
P7 helper @3, rank @1, node 2 lost: <01 <02 <10 <20, <10 <20 <40 <80 makes >01 >12 >30
P7 helper @1, rank @2, node 2 lost: <11 <22, <50 <a0 makes >11 >72 >a0
P7 lost node 2, helpers @3,@1: pieces <01 <12 <30 and <11 <72 <a0 become >01 >12 >20, >10 >60 >80, count =4
P8 nodes @3,@2, L 1: buffer <01 <10 <40 becomes >01 >10 >40, count =0
P9 file <01 <10 <40, L 1, node @1: >11 >50
P9 packets <11 <50, node @1, batch 7: >01 >03 >02 >02 >01 >01 >00 >07 >00 >00 >00, then >03 >11 >50 and 62 zeros>>>>>>>>>>>>>>>>>>>>>>>>>>>>>>>>>>>>>>>>>>>>>>>>>>>>>>>>>>>>>>, then >04 >02 >00 >00 >00; =81 bytes
P9 its @81 bytes: refusal =0
P10 its first @80 bytes: refusal =7
P11 with one byte more, @82 bytes: refusal =12 at =81
P12 no bytes, @0 of them: refusal =7
# of 16 lines of the examples agree: {NOT all|all}
",
    );
}
