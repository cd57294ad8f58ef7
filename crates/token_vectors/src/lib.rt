//! Worked rows for the tests of the programs: command lines and units of C, each with the texts that are wanted and the
//! exit status. The wanted texts were worked out by hand from ISO/IEC 9899:2018 and Clang's manual ("Allocation
//! Tokens"), and not taken from the program. Only tests use this crate.
#![tactic(auto)]

/// One run of `alloctoken` over the file `a.c`.
pub struct Row {
    /// What the row shows.
    pub shows: &'static str,
    /// The words of the command line, with one space between any two; the empty line has none.
    pub line: &'static str,
    /// The text of `a.c`.
    pub unit: &'static str,
    /// The exit status.
    pub code: u8,
    /// What is written on standard output.
    pub out: &'static str,
    /// What is written on standard error.
    pub report: &'static str,
}

/// Two tokens in turn.
pub const TWO: &str = "rewrite --mode increment --max 2 a.c";

/// Three calls of `malloc`.
pub const THREE: &str =
    "void *malloc(unsigned long);\nint main(void) { void *a; a = malloc(1); a = malloc(2); a = malloc(3); return 0; }";

/// Units that are rewritten.
pub const REWRITTEN: [Row; 14] = [
    Row {
        shows: "three calls of malloc get the tokens in turn",
        line: TWO,
        unit: THREE,
        code: 0,
        out: "void * __alloc_token_malloc ( unsigned long , unsigned long ) ;\nvoid * malloc ( unsigned long ) ;\nint main ( void ) { void * a ; a = __alloc_token_malloc ( 1 , 0UL ) ; a = __alloc_token_malloc ( 2 , 1UL ) ; a = __alloc_token_malloc ( 3 , 0UL ) ; return 0 ; }\n",
        report: "",
    },
    Row {
        shows: "a call is a site wherever it stands",
        line: TWO,
        unit: "void *malloc(unsigned long); void *p = malloc(1); void f(int n) { for (int i = n; i; i--) if (malloc(malloc(i))) { void *q = (malloc)(n) ? malloc(n) : 0; } }",
        code: 0,
        out: "void * __alloc_token_malloc ( unsigned long , unsigned long ) ;\nvoid * malloc ( unsigned long ) ;\nvoid * p = __alloc_token_malloc ( 1 , 0UL ) ;\nvoid f ( int n ) { for ( int i = n ; i ; i -- ) if ( __alloc_token_malloc ( __alloc_token_malloc ( i , 0UL ) , 1UL ) ) { void * q = ( __alloc_token_malloc ) ( n , 1UL ) ? __alloc_token_malloc ( n , 0UL ) : 0 ; } }\n",
        report: "",
    },
    Row {
        shows: "operands of sizeof and of the builtin hold no site",
        line: TWO,
        unit: "void *malloc(unsigned long); unsigned long g(void) { return sizeof(malloc(4)) + sizeof malloc(4) + __builtin_infer_alloc_token(malloc(4)); }",
        code: 0,
        out: "void * malloc ( unsigned long ) ;\nunsigned long g ( void ) { return sizeof ( malloc ( 4 ) ) + sizeof malloc ( 4 ) + __builtin_infer_alloc_token ( malloc ( 4 ) ) ; }\n",
        report: "",
    },
    Row {
        shows: "a parameter of the name hides the function, and sizeof holds no site",
        line: TWO,
        unit: "void *malloc(unsigned long); unsigned long f(int malloc) { return sizeof(malloc) + malloc; } unsigned long g(void) { return sizeof(malloc(4)); }",
        code: 0,
        out: "void * malloc ( unsigned long ) ;\nunsigned long f ( int malloc ) { return sizeof ( malloc ) + malloc ; }\nunsigned long g ( void ) { return sizeof ( malloc ( 4 ) ) ; }\n",
        report: "",
    },
    Row {
        shows: "a call of a parameter is no site",
        line: TWO,
        unit: "void *malloc(unsigned long); int f(int malloc) { return malloc(1); }",
        code: 0,
        out: "void * malloc ( unsigned long ) ;\nint f ( int malloc ) { return malloc ( 1 ) ; }\n",
        report: "",
    },
    Row {
        shows: "a parameter of a prototype hides the function",
        line: TWO,
        unit: "int g(int malloc); int f(int n) { return malloc(n); }",
        code: 0,
        out: "int g ( int malloc ) ;\nint f ( int n ) { return malloc ( n ) ; }\n",
        report: "",
    },
    Row {
        shows: "a name in a block hides the function",
        line: TWO,
        unit: "int f(int n) { int malloc; malloc(n); }",
        code: 0,
        out: "int f ( int n ) { int malloc ; malloc ( n ) ; }\n",
        report: "",
    },
    Row {
        shows: "a unit that defines the function has no site of it",
        line: TWO,
        unit: "void *malloc(unsigned long n) { return n; } int f(int n) { malloc(n); }",
        code: 0,
        out: "void * malloc ( unsigned long n ) { return n ; }\nint f ( int n ) { malloc ( n ) ; }\n",
        report: "",
    },
    Row {
        shows: "a unit that declares an entry point has no site",
        line: TWO,
        unit: "int __alloc_token_x(int n); int f(int n) { malloc(n); }",
        code: 0,
        out: "int __alloc_token_x ( int n ) ;\nint f ( int n ) { malloc ( n ) ; }\n",
        report: "",
    },
    Row {
        shows: "each allocation function has its entry point, and sixteen tokens are the default",
        line: "rewrite a.c --mode increment",
        unit: "int f(int n) { realloc(n, 2); calloc(n, n); malloc(); return g(n); }",
        code: 0,
        out: "void * __alloc_token_malloc ( unsigned long , unsigned long ) ;\nvoid * __alloc_token_calloc ( unsigned long , unsigned long , unsigned long ) ;\nvoid * __alloc_token_realloc ( void * , unsigned long , unsigned long ) ;\nint f ( int n ) { __alloc_token_realloc ( n , 2 , 0UL ) ; __alloc_token_calloc ( n , n , 1UL ) ; __alloc_token_malloc ( 2UL ) ; return g ( n ) ; }\n",
        report: "",
    },
    Row {
        shows: "with one token each site has it",
        line: "rewrite --mode increment --max 1 a.c",
        unit: "int f(int n) { malloc(n); malloc(n); }",
        code: 0,
        out: "void * __alloc_token_malloc ( unsigned long , unsigned long ) ;\nint f ( int n ) { __alloc_token_malloc ( n , 0UL ) ; __alloc_token_malloc ( n , 0UL ) ; }\n",
        report: "",
    },
    Row {
        shows: "declarators are printed as they nest",
        line: TWO,
        unit: "int (*f)(int), *a[3];",
        code: 0,
        out: "int ( * f ) ( int ) , * a [ 3 ] ;\n",
        report: "",
    },
    Row {
        shows: "the empty unit gives no text",
        line: TWO,
        unit: "",
        code: 0,
        out: "",
        report: "",
    },
    Row {
        shows: "a comment is a separator",
        line: TWO,
        unit: "int/* no */a;// end",
        code: 0,
        out: "int a ;\n",
        report: "",
    },
];

/// Command lines, files and units that are refused.
pub const REFUSED: [Row; 17] = [
    Row {
        shows: "no words",
        line: "",
        unit: "",
        code: 2,
        out: "",
        report: USAGE,
    },
    Row {
        shows: "a command alone",
        line: "rewrite",
        unit: "",
        code: 2,
        out: "",
        report: USAGE,
    },
    Row {
        shows: "a command that is not built",
        line: "tokens a.c",
        unit: "",
        code: 2,
        out: "",
        report: USAGE,
    },
    Row {
        shows: "no tokens",
        line: "rewrite --mode increment --max 0 a.c",
        unit: "",
        code: 2,
        out: "",
        report: USAGE,
    },
    Row {
        shows: "a missing file",
        line: "rewrite --mode increment b.c",
        unit: "",
        code: 3,
        out: "",
        report: "file fault\n",
    },
    Row {
        shows: "an octal constant with an 8",
        line: TWO,
        unit: "int a = 08;",
        code: 7,
        out: "",
        report: "bad character at 8\n",
    },
    Row {
        shows: "a floating constant",
        line: TWO,
        unit: "int x = 1.5;",
        code: 7,
        out: "",
        report: "bad character at 8\n",
    },
    Row {
        shows: "a byte that begins no token",
        line: TWO,
        unit: "@",
        code: 7,
        out: "",
        report: "bad character at 0\n",
    },
    Row {
        shows: "a comment that does not end",
        line: TWO,
        unit: "int a; /* open",
        code: 7,
        out: "",
        report: "bad character at 7\n",
    },
    Row {
        shows: "a string that does not end on its line",
        line: TWO,
        unit: "char *s = \"open;\n",
        code: 7,
        out: "",
        report: "bad character at 10\n",
    },
    Row {
        shows: "a character constant of two characters",
        line: TWO,
        unit: "int c = 'ab';",
        code: 7,
        out: "",
        report: "bad character at 8\n",
    },
    Row {
        shows: "the bad character is told, also where the tokens before it go wrong",
        line: TWO,
        unit: "int f(void) { return 1 } $",
        code: 7,
        out: "",
        report: "bad character at 25\n",
    },
    Row {
        shows: "a statement without its semicolon",
        line: TWO,
        unit: "int f(void) { return 1 }",
        code: 8,
        out: "",
        report: "syntax at token 8\n",
    },
    Row {
        shows: "a body that does not end",
        line: TWO,
        unit: "int f(void) {",
        code: 8,
        out: "",
        report: "syntax at token 6\n",
    },
    Row {
        shows: "a unit that begins with a semicolon",
        line: TWO,
        unit: ";",
        code: 8,
        out: "",
        report: "syntax at token 0\n",
    },
    Row {
        shows: "a typedef name alone in an initialiser",
        line: TWO,
        unit: "typedef int t; int a = t;",
        code: 8,
        out: "",
        report: "syntax at token 7\n",
    },
    Row {
        shows: "a file that is not named by the words is not read",
        line: "rewrite --mode increment a.c b.c",
        unit: "@",
        code: 2,
        out: "",
        report: USAGE,
    },
];

/// The line for words that the program does not take.
pub const USAGE: &str = "usage: alloctoken rewrite|tokens|exec|run|sample [options] FILE\n";
