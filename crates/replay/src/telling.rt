// What is told of a stream: answers, the words that changed, and lines that are no command.
use answers::Reply;
use output::Paper;

// A number with a space before it.
fn spaced(paper: &mut Paper, n: u64) {
    paper.byte(b' ');
    paper.number(n);
}

// Tells what came back: its name, number, x and y.
fn tell(paper: &mut Paper, name: u8, reply: Reply) {
    paper.byte(name);
    spaced(paper, reply.number);
    spaced(paper, reply.x);
    spaced(paper, reply.y);
}

// Tells the answer to a request, which has z as well ..
pub fn answer(paper: &mut Paper, reply: Reply) {
    tell(paper, b'r', reply);
    spaced(paper, reply.z);
}

// .. and what the audit found, which has none.
pub fn finding(paper: &mut Paper, reply: Reply) {
    tell(paper, b'a', reply);
}

// Tells of each word that is no longer what it was, and takes it over. This looks at 4,700 words for each request.
// Stays: the place in `before` is looked up by hand, since a zip of the two takes nearly twice the instructions for each word.
pub fn changes(book: &[u64], before: &mut [u64], paper: &mut Paper) {
    for (i, word) in book.iter().enumerate() {
        if i < before.len() && before[i] != *word {
            before[i] = *word;
            spaced(paper, i as u64);
            spaced(paper, *word);
        }
    }
}

// Tells a line as it came.
pub fn complain(paper: &mut Paper, line: &[u8]) {
    paper.text("? ");
    paper.bytes(line);
    paper.text("\n");
}
