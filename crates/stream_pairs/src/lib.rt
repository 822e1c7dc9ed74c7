// The table of the 64 doubled pairs: entry i is 2^i draws at once. Document 02, M-106.
#![tactic(auto)]

ghost use Rattle.std.specs.Prelude.{◌≡◌};
ghost use Rattle.stream_spec.specs.Pairs.{table};

use stream_spec::Pair;

const PAIRS: [Pair; 64] = [
    Pair {
        multiplier: 6364136223846793005,
        increment: 1442695040888963407,
    },
    Pair {
        multiplier: 7520897724310334953,
        increment: 1876011003808476466,
    },
    Pair {
        multiplier: 18108194425815612945,
        increment: 7401132627792533940,
    },
    Pair {
        multiplier: 13086856194709077281,
        increment: 6566661184467396264,
    },
    Pair {
        multiplier: 10186629832379121217,
        increment: 3646985772805368400,
    },
    Pair {
        multiplier: 10828933358287359105,
        increment: 982119659650238624,
    },
    Pair {
        multiplier: 4910590176156014849,
        increment: 10607473198416945472,
    },
    Pair {
        multiplier: 9908147928152388097,
        increment: 6914523672464851584,
    },
    Pair {
        multiplier: 146241703003251713,
        increment: 4689171378020353280,
    },
    Pair {
        multiplier: 7321387688379467777,
        increment: 8103286608563669504,
    },
    Pair {
        multiplier: 12255457568021647361,
        increment: 7710372194127975424,
    },
    Pair {
        multiplier: 9867978473775767553,
        increment: 16043993925053589504,
    },
    Pair {
        multiplier: 5088048636545613825,
        increment: 1993901509916512256,
    },
    Pair {
        multiplier: 2150478223927705601,
        increment: 13175896319671181312,
    },
    Pair {
        multiplier: 9196835419631190017,
        increment: 1993366741509554176,
    },
    Pair {
        multiplier: 5957860013156466689,
        increment: 7241871532530761728,
    },
    Pair {
        multiplier: 10389140232424652801,
        increment: 9829074100562493440,
    },
    Pair {
        multiplier: 13023643825678581761,
        increment: 7211655632440131584,
    },
    Pair {
        multiplier: 288945459443007489,
        increment: 14014807304630960128,
    },
    Pair {
        multiplier: 13413133364217511937,
        increment: 15586959662575517696,
    },
    Pair {
        multiplier: 8991946233350193153,
        increment: 5614651135149211648,
    },
    Pair {
        multiplier: 1986842707489718273,
        increment: 10449321915693662208,
    },
    Pair {
        multiplier: 13772462672974970881,
        increment: 17778722412968280064,
    },
    Pair {
        multiplier: 11399802156803424257,
        increment: 4631015078550831104,
    },
    Pair {
        multiplier: 13559343778149433345,
        increment: 14683519683525607424,
    },
    Pair {
        multiplier: 8604389488178757633,
        increment: 14159509325327892480,
    },
    Pair {
        multiplier: 16938562998715285505,
        increment: 4382386631181598720,
    },
    Pair {
        multiplier: 14349518013152100353,
        increment: 5251965553014210560,
    },
    Pair {
        multiplier: 5928836310318972929,
        increment: 14899444342342025216,
    },
    Pair {
        multiplier: 13010594125244792833,
        increment: 10487453482519363584,
    },
    Pair {
        multiplier: 12186130195207421953,
        increment: 17516142451218186240,
    },
    Pair {
        multiplier: 5925516316705292289,
        increment: 2750482773444657152,
    },
    Pair {
        multiplier: 11851032633410584577,
        increment: 5500965546889314304,
    },
    Pair {
        multiplier: 5255321193111617537,
        increment: 11001931093778628608,
    },
    Pair {
        multiplier: 10510642386223235073,
        increment: 3557118113847705600,
    },
    Pair {
        multiplier: 2574540698736918529,
        increment: 7114236227695411200,
    },
    Pair {
        multiplier: 5149081397473837057,
        increment: 14228472455390822400,
    },
    Pair {
        multiplier: 10298162794947674113,
        increment: 10010200837072093184,
    },
    Pair {
        multiplier: 2149581516185796609,
        increment: 1573657600434634752,
    },
    Pair {
        multiplier: 4299163032371593217,
        increment: 3147315200869269504,
    },
    Pair {
        multiplier: 8598326064743186433,
        increment: 6294630401738539008,
    },
    Pair {
        multiplier: 17196652129486372865,
        increment: 12589260803477078016,
    },
    Pair {
        multiplier: 15946560185263194113,
        increment: 6731777533244604416,
    },
    Pair {
        multiplier: 13446376296816836609,
        increment: 13463555066489208832,
    },
    Pair {
        multiplier: 8446008519924121601,
        increment: 8480366059268866048,
    },
    Pair {
        multiplier: 16892017039848243201,
        increment: 16960732118537732096,
    },
    Pair {
        multiplier: 15337290005986934785,
        increment: 15474720163365912576,
    },
    Pair {
        multiplier: 12227835938264317953,
        increment: 12502696253022273536,
    },
    Pair {
        multiplier: 6008927802819084289,
        increment: 6558648432334995456,
    },
    Pair {
        multiplier: 12017855605638168577,
        increment: 13117296864669990912,
    },
    Pair {
        multiplier: 5588967137566785537,
        increment: 7787849655630430208,
    },
    Pair {
        multiplier: 11177934275133571073,
        increment: 15575699311260860416,
    },
    Pair {
        multiplier: 3909124476557590529,
        increment: 12704654548812169216,
    },
    Pair {
        multiplier: 7818248953115181057,
        increment: 6962565023914786816,
    },
    Pair {
        multiplier: 15636497906230362113,
        increment: 13925130047829573632,
    },
    Pair {
        multiplier: 12826251738751172609,
        increment: 9403516021949595648,
    },
    Pair {
        multiplier: 7205759403792793601,
        increment: 360287970189639680,
    },
    Pair {
        multiplier: 14411518807585587201,
        increment: 720575940379279360,
    },
    Pair {
        multiplier: 10376293541461622785,
        increment: 1441151880758558720,
    },
    Pair {
        multiplier: 2305843009213693953,
        increment: 2882303761517117440,
    },
    Pair {
        multiplier: 4611686018427387905,
        increment: 5764607523034234880,
    },
    Pair {
        multiplier: 9223372036854775809,
        increment: 11529215046068469760,
    },
    Pair {
        multiplier: 1,
        increment: 4611686018427387904,
    },
    Pair {
        multiplier: 1,
        increment: 9223372036854775808,
    },
];

// All of them at once, so that a jump lays them out once.
pub fn pairs() -> [Pair; 64]
    ensures { result ≡ table }
{
    PAIRS
}
