// The files that `demo` makes from a number. Their lines were drawn by hand, with another program's
// generator.
use aeth_cli::demo_texts;
use std::str;
use std::test::Fail;

/// Parts of a file of words, by number.
static WORDS: [(u32, &str, &str); 3] = [
    (
        0,
        "connection,side,cycle,value\nc42,fwd,0,0\nc31,fwd,2,1\nc45,fwd,4,2\nc29,fwd,6,3\n",
        "\nc57,fwd,19998,9999\n",
    ),
    (
        7,
        "connection,side,cycle,value\nc19,fwd,0,0\nc37,fwd,2,1\nc34,fwd,4,2\nc46,fwd,6,3\n",
        "\nc32,fwd,19998,9999\n",
    ),
    (
        1_000_000,
        "connection,side,cycle,value\nc47,fwd,0,0\nc58,fwd,2,1\nc52,fwd,4,2\nc11,fwd,6,3\n",
        "\nc55,fwd,19998,9999\n",
    ),
];

#[test]
fn words_are_drawn(rt: HostRuntime) -> Result<(), Fail> {
    for &(n, front, end) in &WORDS {
        let texts = demo_texts(rt.alloc(), n)?;
        let words = str::from_utf8(&texts.words)?;
        assert!(rt; words.starts_with(front), "{n}");
        assert!(rt; words.ends_with(end), "{n}");
    }
    Ok(())
}

/// What the application file of the number 7 has, whose shifts are 5, 12, 9 and 10.
static STREAMS: [&str; 7] = [
    "version = 1\ndetour = 1\ncore = [ {name = \"k0\", ni = \"n0\"}, {name = \"k1\", ni = \"n1\"}, ",
    ", {name = \"k15\", ni = \"n15\"} ]\n[[connection]]\nname = \"c0\"\nfrom = \"k0\"\nto = \"k5\"\nfwd = {words = 1, per = 64, latency = 100, delay = 0}\nback = {words = 0, per = 1, latency = 100, delay = 0}\n",
    "\n[[connection]]\nname = \"c31\"\nfrom = \"k15\"\nto = \"k11\"\nfwd = {words = 1, per = 64,",
    "\n[[connection]]\nname = \"c32\"\nfrom = \"k0\"\nto = \"k9\"\nfwd = {words = 1, per = 16,",
    "\n[[connection]]\nname = \"c63\"\nfrom = \"k15\"\nto = \"k9\"\nfwd = {words = 1, per = 32,",
    "\"c15\"]\nsmooth = [\"u1\"]\n[[use]]\nname = \"u1\"\nconnections = [\"c0\", \"c1\", ",
    "\"c47\"]\n[[use]]\nname = \"u3\"\nconnections = [\"c48\", ",
];

#[test]
fn streams_lead_so_far(rt: HostRuntime) -> Result<(), Fail> {
    let texts = demo_texts(rt.alloc(), 7)?;
    let app = str::from_utf8(&texts.app)?;
    for &part in &STREAMS {
        assert!(rt; app.contains(part), "{part}");
    }
    assert!(rt; app.ends_with(", \"c63\"]\n"));
    Ok(())
}

/// What the chip file has.
static MESH: [&str; 5] = [
    "version = 1\nslots = 64\nrouters = [\"r0\", \"r1\", ",
    ", \"r15\"]\nnis = [\"n0\", ",
    ", \"n15\"]\nlink = [\n  {from = \"n0\", to = \"r0\"},\n  {from = \"r0\", to = \"n0\"},\n",
    "  {from = \"r15\", to = \"n15\"},\n  {from = \"r0\", to = \"r1\"},\n  {from = \"r1\", to = \"r0\"},\n  {from = \"r0\", to = \"r4\"},\n",
    "  {from = \"r7\", to = \"r3\"},\n",
];

#[test]
fn the_chip_is_a_mesh(rt: HostRuntime) -> Result<(), Fail> {
    let texts = demo_texts(rt.alloc(), 0)?;
    let chip = str::from_utf8(&texts.chip)?;
    for &part in &MESH {
        assert!(rt; chip.contains(part), "{part}");
    }
    assert!(rt; chip.ends_with("  {from = \"r15\", to = \"r14\"},\n]\n"));
    assert_eq!(rt; chip.lines().count(), 86);
    Ok(())
}
