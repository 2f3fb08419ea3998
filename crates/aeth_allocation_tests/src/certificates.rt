// Refusals with their tries and certificates, and what is found of texts, as they were worked out by hand.
use crate::apps::{CROSSING, ROLL};
use crate::chips::{PAIR, SQUARE};
use crate::refusals::{Asked, AskedOfRefusal, Granted, Judged, Verdict};
use crate::setups::Question::OfRefusal;
use crate::setups::{Row, wrong_row};
use aeth_base::{NiId, Side};

/// The streams between the first corner and the last go over links 8 and 13 with their need of 6 and the other's one slot
/// back. So these leave the third one slot, where it wishes 3.
const CROSSED: AskedOfRefusal = AskedOfRefusal {
    asked: Asked(2, Side::Fwd, 3, 20, 0),
    turn: 3,
    grants: &[
        Granted(0, Side::Fwd, &[0, 8, 12, 7], 0b0011_1111),
        Granted(0, Side::Back, &[6, 13, 9, 1], 0b0000_0001),
        Granted(1, Side::Fwd, &[6, 13, 9, 1], 0b0111_1110),
        Granted(1, Side::Back, &[0, 8, 12, 7], 0b0100_0000),
    ],
    from: &[NiId(2)],
    to: &[NiId(1)],
    crowded: &[],
    cuts: &[&[4, 11, 8], &[4, 14, 13]],
    text: "explain 1
try dsp_disp 0 fwd 3
cut 4,11,8
cut 4,14,13
end
",
    judged: &[
        // Its own text, another order, and longer cuts of which one stands twice.
        Judged(
            "explain 1\ntry dsp_disp 0 fwd 3\ncut 4,11,8\ncut 4,14,13\nend\n",
            &[&[4, 11, 8], &[4, 14, 13]],
            Verdict::Complete,
        ),
        Judged(
            "explain 1\ntry dsp_disp 0 fwd 3\ncut 4,14,13\ncut 4,11,8\nend\n",
            &[&[4, 14, 13], &[4, 11, 8]],
            Verdict::Complete,
        ),
        Judged(
            "explain 1\ntry dsp_disp 0 fwd 3\ncut 4,14,13,3\ncut 4,11,8\ncut 4,14,13,3\nend\n",
            &[&[4, 14, 13, 3], &[4, 11, 8], &[4, 14, 13, 3]],
            Verdict::Complete,
        ),
        // A cut twice and the other not at all; none: the least path is named.
        Judged(
            "explain 1\ntry dsp_disp 0 fwd 3\ncut 4,14,13\ncut 4,14,13\nend\n",
            &[&[4, 14, 13], &[4, 14, 13]],
            Verdict::Open(&[4, 11, 8, 3]),
        ),
        Judged(
            "explain 1\ntry dsp_disp 0 fwd 3\ncut 4,11,8\nend\n",
            &[&[4, 11, 8]],
            Verdict::Open(&[4, 14, 13, 3]),
        ),
        Judged(
            "explain 1\ntry dsp_disp 0 fwd 3\nend\n",
            &[],
            Verdict::Open(&[4, 11, 8, 3]),
        ),
        // Links that leave slots, and links that leave another interface.
        Judged(
            "explain 1\ntry dsp_disp 0 fwd 3\ncut 4,14,13\ncut 4,11\nend\n",
            &[&[4, 14, 13], &[4, 11]],
            Verdict::NotDead(2),
        ),
        Judged(
            "explain 1\ntry dsp_disp 0 fwd 3\ncut 0,8\ncut 4,11,8\ncut 4,14,13\nend\n",
            &[&[0, 8], &[4, 11, 8], &[4, 14, 13]],
            Verdict::NotDead(1),
        ),
    ],
};

/// The channel forward took the first two slots of link 0, and back every slot would be needed.
const ROLLED: AskedOfRefusal = AskedOfRefusal {
    asked: Asked(0, Side::Back, 1, 1, 0),
    turn: 1,
    grants: &[Granted(0, Side::Fwd, &[0, 1], 0b0000_0011)],
    from: &[NiId(0)],
    to: &[NiId(0)],
    crowded: &[],
    cuts: &[&[0]],
    text: "explain 1
try c0 0 back 1
cut 0
end
",
    judged: &[
        Judged(
            "explain 1\ntry c0 0 back 1\ncut 0,1\nend\n",
            &[&[0, 1]],
            Verdict::Complete,
        ),
        Judged(
            "explain 1\ntry c0 0 back 1\nend\n",
            &[],
            Verdict::Open(&[0, 1]),
        ),
    ],
};

/// A chip, an application, and what is asked of the refusal.
static ROWS: &[Row] = &[
    (SQUARE, CROSSING, OfRefusal(CROSSED)),
    (PAIR, ROLL, OfRefusal(ROLLED)),
];

#[test]
fn refusals_are_explained(rt: HostRuntime) {
    assert_eq!(rt; wrong_row(rt.alloc(), ROWS), None);
}
