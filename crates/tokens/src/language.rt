//! Languages that a table is written in.

/// How a language writes a table: what stands before, between and behind its parts.
pub struct Language {
    /// Up to the first rule.
    pub head: &'static str,
    pub rule_open: &'static str,
    pub kept: &'static str,
    pub skipped: &'static str,
    /// Behind a byte of a name that is written by its number.
    pub byte_close: &'static str,
    /// From the last rule up to the first state.
    pub middle: &'static str,
    pub state_open: &'static str,
    pub lead_open: &'static str,
    pub lead_close: &'static str,
    pub leads_close: &'static str,
    pub no_rule: &'static str,
    pub number_open: &'static str,
    pub number_close: &'static str,
    pub state_close: &'static str,
    /// From the last state on.
    pub tail: &'static str,
}

/// C of 1999 and later.
pub const C: Language = Language {
    head: C_HEAD,
    rule_open: "{\"",
    kept: "\", 0},\n",
    skipped: "\", 1},\n",
    byte_close: "\"\"",
    middle: C_MIDDLE,
    state_open: "{(const struct token_lead[]){",
    lead_open: "{",
    lead_close: "},",
    leads_close: "{UINT32_MAX,UINT32_MAX,0}}, ",
    no_rule: "-1",
    number_open: "",
    number_close: "",
    state_close: "},\n",
    tail: C_TAIL,
};

/// Rust of 2021 and later.
pub const RUST: Language = Language {
    head: RUST_HEAD,
    rule_open: "Rule { name: \"",
    kept: "\", skipped: false },\n",
    skipped: "\", skipped: true },\n",
    byte_close: "",
    middle: RUST_MIDDLE,
    state_open: "State { leads: &[",
    lead_open: "(",
    lead_close: "),",
    leads_close: "], rule: ",
    no_rule: "None",
    number_open: "Some(",
    number_close: ")",
    state_close: " },\n",
    tail: RUST_TAIL,
};

const C_HEAD: &str =
    "/* Written by `tokens --table c`. C of 1999 and later; a file that cuts texts includes this one:
 *
 *     size_t len;
 *     int rule;
 *     while ((len = token_next(text, end - text, &rule)) != 0) {
 *         if (!token_rules[rule].skipped)
 *             printf(\"%s %.*s\\n\", token_rules[rule].name, (int)len, text);
 *         text += len;
 *     }
 */
#include <stddef.h>
#include <stdint.h>

struct token_rule { const char *name; int skipped; };

/* Characters that lead to a state, and a state: its leads ascend, and its rule is -1 where no token ends. */
struct token_lead { uint32_t first, last, next; };
struct token_state { const struct token_lead *leads; int rule; };

static const struct token_rule token_rules[] = {
";

const C_MIDDLE: &str = "{0, 0}};

static const struct token_state token_states[] = {
";

const C_TAIL: &str = "{0, -1}};

/* The bytes of the character that the text begins with, 0 where it is none of UTF-8. */
static size_t token_character(const char *text, size_t len, uint32_t *character) {
    static const uint32_t least[] = {0, 0x80, 0x800, 0x10000};
    const unsigned char *bytes = (const unsigned char *)text;
    size_t at, more;
    if (len == 0 || (bytes[0] >= 0x80 && bytes[0] < 0xC2) || bytes[0] > 0xF4)
        return 0;
    more = (bytes[0] >= 0xC0) + (bytes[0] >= 0xE0) + (bytes[0] >= 0xF0);
    if (more >= len)
        return 0;
    *character = more == 0 ? bytes[0] : bytes[0] & (0x3Fu >> more);
    for (at = 1; at <= more; at++) {
        if ((bytes[at] & 0xC0) != 0x80)
            return 0;
        *character = *character << 6 | (bytes[at] & 0x3F);
    }
    if (*character < least[more] || *character > 0x10FFFF || (*character >= 0xD800 && *character < 0xE000))
        return 0;
    return more + 1;
}

/* The bytes of the token that the text begins with: the longest that a rule matches, by the first such rule, whose
 * number is stored. 0 where none begins. */
static size_t token_next(const char *text, size_t len, int *rule) {
    const struct token_state *state = token_states;
    const struct token_lead *lead;
    size_t at = 0, longest = 0, bytes;
    uint32_t character;
    while ((bytes = token_character(text + at, len - at, &character)) != 0) {
        for (lead = state->leads; lead->last < character; lead++)
            ;
        if (character < lead->first)
            break;
        state = &token_states[lead->next];
        at += bytes;
        if (state->rule >= 0) {
            longest = at;
            *rule = state->rule;
        }
    }
    return longest;
}
";

const RUST_HEAD: &str = "// Written by `tokens --table rust`. A module of Rust that needs no crate:
//
//     while let Some((rule, len)) = next_token(text) {
//         if !RULES[rule].skipped {
//             println!(\"{} {}\", RULES[rule].name, &text[..len]);
//         }
//         text = &text[len..];
//     }

/// A rule, and whether its tokens are left out.
pub struct Rule {
    pub name: &'static str,
    pub skipped: bool,
}

/// Where characters lead, from the first up to the last, in ascending order; the rule of a token that ends here.
struct State {
    leads: &'static [(u32, u32, usize)],
    rule: Option<usize>,
}

pub static RULES: &[Rule] = &[
";

const RUST_MIDDLE: &str = "];

static STATES: &[State] = &[
";

const RUST_TAIL: &str = "];

/// The rule and the bytes of the token that the text begins with: the longest that a rule matches, by the first such rule.
pub fn next_token(text: &str) -> Option<(usize, usize)> {
    let (mut state, mut longest) = (&STATES[0], None);
    for (start, character) in text.char_indices() {
        let code = u32::from(character);
        let at = state.leads.partition_point(|lead| lead.1 < code);
        match state.leads.get(at) {
            Some(&(first, _, next)) if first <= code => state = &STATES[next],
            _ => break,
        }
        if let Some(rule) = state.rule {
            longest = Some((rule, start + character.len_utf8()));
        }
    }
    longest
}
";
