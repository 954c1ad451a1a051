use case_table::Case;

/// The reserved words. A word's code is its place.
pub const RESERVED: [Case; 23] = [
    Case {
        word: "action",
        code: 0,
    },
    Case {
        word: "bit",
        code: 1,
    },
    Case {
        word: "const",
        code: 2,
    },
    Case {
        word: "control",
        code: 3,
    },
    Case {
        word: "default",
        code: 4,
    },
    Case {
        word: "else",
        code: 5,
    },
    Case {
        word: "false",
        code: 6,
    },
    Case {
        word: "for",
        code: 7,
    },
    Case {
        word: "header",
        code: 8,
    },
    Case {
        word: "if",
        code: 9,
    },
    Case {
        word: "in",
        code: 10,
    },
    Case {
        word: "inout",
        code: 11,
    },
    Case {
        word: "int",
        code: 12,
    },
    Case {
        word: "out",
        code: 13,
    },
    Case {
        word: "parser",
        code: 14,
    },
    Case {
        word: "select",
        code: 15,
    },
    Case {
        word: "state",
        code: 16,
    },
    Case {
        word: "struct",
        code: 17,
    },
    Case {
        word: "symbolic",
        code: 18,
    },
    Case {
        word: "table",
        code: 19,
    },
    Case {
        word: "transition",
        code: 20,
    },
    Case {
        word: "true",
        code: 21,
    },
    Case {
        word: "_",
        code: 22,
    },
];

/// The signs. A sign's code is its place.
pub const SIGNS: [Case; 31] = [
    Case { word: "{", code: 0 },
    Case { word: "}", code: 1 },
    Case { word: "(", code: 2 },
    Case { word: ")", code: 3 },
    Case { word: "[", code: 4 },
    Case { word: "]", code: 5 },
    Case { word: "<", code: 6 },
    Case { word: ">", code: 7 },
    Case { word: ";", code: 8 },
    Case { word: ":", code: 9 },
    Case {
        word: ",",
        code: 10,
    },
    Case {
        word: ".",
        code: 11,
    },
    Case {
        word: "=",
        code: 12,
    },
    Case {
        word: "+",
        code: 13,
    },
    Case {
        word: "-",
        code: 14,
    },
    Case {
        word: "*",
        code: 15,
    },
    Case {
        word: "&",
        code: 16,
    },
    Case {
        word: "|",
        code: 17,
    },
    Case {
        word: "^",
        code: 18,
    },
    Case {
        word: "~",
        code: 19,
    },
    Case {
        word: "!",
        code: 20,
    },
    Case {
        word: "++",
        code: 21,
    },
    Case {
        word: "==",
        code: 22,
    },
    Case {
        word: "!=",
        code: 23,
    },
    Case {
        word: "<=",
        code: 24,
    },
    Case {
        word: ">=",
        code: 25,
    },
    Case {
        word: "&&",
        code: 26,
    },
    Case {
        word: "||",
        code: 27,
    },
    Case {
        word: "<<",
        code: 28,
    },
    Case {
        word: "&&&",
        code: 29,
    },
    Case {
        word: "@",
        code: 30,
    },
];
