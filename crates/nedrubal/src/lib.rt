// What C links: document 01, "What the desk covers", "The C gateway reaches the rate rules and the limit rules with
// plain numbers". Each function takes its own numbers and then the statics, in the order of the table of statics, all
// signed, of any value, and answers one figure, or minus the refusal number. It only makes the numbers unsigned and
// hands them on; `gateway` has the calls. A number is an argument for C, so each export lists them.
#![tactic(auto)]

ghost use Rattle.std.specs.Prelude.{◌≡◌, [], ◌∷◌};
ghost use Rattle.paper.specs.Ranges.{unsigned, given_of};
ghost use Rattle.paper_desk.specs.Gateway.{level_call, range_call, band_call};

// "a level's rate from tentative, m and level".
#[unsafe(no_mangle)]
pub extern "C" fn nedrubal_level_rate(
    tentative: i64,
    m: i64,
    level: i64,
    lot: i64,
    h: i64,
    q: i64,
    aup: i64,
    adown: i64,
    wait: i64,
    rh1: i64,
    rh2: i64,
    rh3: i64,
    liq: i64,
    min1: i64,
    min2: i64,
    min3: i64,
    smax: i64,
    xpr: i64,
    shift: i64,
    pchmax: i64,
    pclmax: i64,
    w: i64,
    u: i64,
    monitoring: i64,
    ewma: i64,
    uevening: i64,
    autochange: i64,
    eveningmax: i64,
    useexternal: i64,
) -> i64
    ensures { result ≡ level_call (given_of (lot ∷ h ∷ q ∷ aup ∷ adown ∷ wait ∷ rh1 ∷ rh2 ∷ rh3 ∷ liq
        ∷ min1 ∷ min2 ∷ min3 ∷ smax ∷ xpr ∷ shift ∷ pchmax ∷ pclmax ∷ w ∷ u ∷ monitoring ∷ ewma ∷ uevening
        ∷ autochange ∷ eveningmax ∷ useexternal ∷ []))
        (unsigned tentative) (unsigned m) (unsigned level) }
{
    let given = inputs::given_of(&[
        lot,
        h,
        q,
        aup,
        adown,
        wait,
        rh1,
        rh2,
        rh3,
        liq,
        min1,
        min2,
        min3,
        smax,
        xpr,
        shift,
        pchmax,
        pclmax,
        w,
        u,
        monitoring,
        ewma,
        uevening,
        autochange,
        eveningmax,
        useexternal,
    ]);
    gateway::level_answer(
        given,
        exact::unsigned(tentative),
        exact::unsigned(m),
        exact::unsigned(level),
    )
}

// "a fresh range limit from P, rate and side".
#[unsafe(no_mangle)]
pub extern "C" fn nedrubal_range_limit(
    p: i64,
    rate: i64,
    side: i64,
    lot: i64,
    h: i64,
    q: i64,
    aup: i64,
    adown: i64,
    wait: i64,
    rh1: i64,
    rh2: i64,
    rh3: i64,
    liq: i64,
    min1: i64,
    min2: i64,
    min3: i64,
    smax: i64,
    xpr: i64,
    shift: i64,
    pchmax: i64,
    pclmax: i64,
    w: i64,
    u: i64,
    monitoring: i64,
    ewma: i64,
    uevening: i64,
    autochange: i64,
    eveningmax: i64,
    useexternal: i64,
) -> i64
    ensures { result ≡ range_call (given_of (lot ∷ h ∷ q ∷ aup ∷ adown ∷ wait ∷ rh1 ∷ rh2 ∷ rh3 ∷ liq
        ∷ min1 ∷ min2 ∷ min3 ∷ smax ∷ xpr ∷ shift ∷ pchmax ∷ pclmax ∷ w ∷ u ∷ monitoring ∷ ewma ∷ uevening
        ∷ autochange ∷ eveningmax ∷ useexternal ∷ []))
        (unsigned p) (unsigned rate) (unsigned side) }
{
    let given = inputs::given_of(&[
        lot,
        h,
        q,
        aup,
        adown,
        wait,
        rh1,
        rh2,
        rh3,
        liq,
        min1,
        min2,
        min3,
        smax,
        xpr,
        shift,
        pchmax,
        pclmax,
        w,
        u,
        monitoring,
        ewma,
        uevening,
        autochange,
        eveningmax,
        useexternal,
    ]);
    gateway::range_answer(
        given,
        exact::unsigned(p),
        exact::unsigned(rate),
        exact::unsigned(side),
    )
}

// "a band limit from P, S_1, k, that side's repo rate, c and side"; the repo rate keeps its sign.
#[unsafe(no_mangle)]
pub extern "C" fn nedrubal_band_limit(
    p: i64,
    s1: i64,
    k: i64,
    repo: i64,
    c: i64,
    side: i64,
    lot: i64,
    h: i64,
    q: i64,
    aup: i64,
    adown: i64,
    wait: i64,
    rh1: i64,
    rh2: i64,
    rh3: i64,
    liq: i64,
    min1: i64,
    min2: i64,
    min3: i64,
    smax: i64,
    xpr: i64,
    shift: i64,
    pchmax: i64,
    pclmax: i64,
    w: i64,
    u: i64,
    monitoring: i64,
    ewma: i64,
    uevening: i64,
    autochange: i64,
    eveningmax: i64,
    useexternal: i64,
) -> i64
    ensures { result ≡ band_call (given_of (lot ∷ h ∷ q ∷ aup ∷ adown ∷ wait ∷ rh1 ∷ rh2 ∷ rh3 ∷ liq
        ∷ min1 ∷ min2 ∷ min3 ∷ smax ∷ xpr ∷ shift ∷ pchmax ∷ pclmax ∷ w ∷ u ∷ monitoring ∷ ewma ∷ uevening
        ∷ autochange ∷ eveningmax ∷ useexternal ∷ []))
        (unsigned p)
        (unsigned s1) (unsigned k) repo (unsigned c) (unsigned side) }
{
    let given = inputs::given_of(&[
        lot,
        h,
        q,
        aup,
        adown,
        wait,
        rh1,
        rh2,
        rh3,
        liq,
        min1,
        min2,
        min3,
        smax,
        xpr,
        shift,
        pchmax,
        pclmax,
        w,
        u,
        monitoring,
        ewma,
        uevening,
        autochange,
        eveningmax,
        useexternal,
    ]);
    gateway::band_answer(
        given,
        exact::unsigned(p),
        exact::unsigned(s1),
        exact::unsigned(k),
        repo,
        exact::unsigned(c),
        exact::unsigned(side),
    )
}
