//! The texts that define the macros of the headers.
ghost use Rattle.std.specs.Prelude.{◌≡◌};
ghost use Rattle.k_lex_headers.specs.Texts as spec;

/// The type `size_t` (7.19).
pub fn size() -> &'static [u8]
    ensures { result.now ≡ spec.size }
{
    b"#define size_t unsigned long\n"
}

/// `EOF` (7.21.1).
pub fn eof() -> &'static [u8]
    ensures { result.now ≡ spec.eof }
{
    b"#define EOF (-1)\n"
}

/// The limits that no weak name gives (5.2.4.2.1).
pub fn limits() -> &'static [u8]
    ensures { result.now ≡ spec.limits }
{
    b"#define INT_MIN (-2147483647-1)\n#define INT_MAX 2147483647\n#define UINT_MAX 4294967295U\n#define LONG_MIN (-9223372036854775807L-1)\n#define LONG_MAX 9223372036854775807L\n#define ULONG_MAX 18446744073709551615UL\n"
}

/// The types of times (7.27.1).
pub fn times() -> &'static [u8]
    ensures { result.now ≡ spec.times }
{
    b"#define clock_t long\n#define time_t long\n#define CLOCKS_PER_SEC 1000000L\n"
}

/// `bool` and its values (7.18).
pub fn booleans() -> &'static [u8]
    ensures { result.now ≡ spec.booleans }
{
    b"#define bool _Bool\n#define true 1\n#define false 0\n#define __bool_true_false_are_defined 1\n"
}

/// Types of exact widths (7.20.1.1).
pub fn exact_types() -> &'static [u8]
    ensures { result.now ≡ spec.exact_types }
{
    b"#define int8_t signed char\n#define int16_t short\n#define int32_t int\n#define int64_t long\n#define uint8_t unsigned char\n#define uint16_t unsigned short\n#define uint32_t unsigned int\n#define uint64_t unsigned long\n"
}

/// Types of least widths (7.20.1.2).
pub fn least_types() -> &'static [u8]
    ensures { result.now ≡ spec.least_types }
{
    b"#define int_least8_t signed char\n#define int_least16_t short\n#define int_least32_t int\n#define int_least64_t long\n#define uint_least8_t unsigned char\n#define uint_least16_t unsigned short\n#define uint_least32_t unsigned int\n#define uint_least64_t unsigned long\n"
}

/// The fastest types, and those that hold pointers and everything (7.20.1.3 to 7.20.1.5).
pub fn fast_types() -> &'static [u8]
    ensures { result.now ≡ spec.fast_types }
{
    b"#define int_fast8_t signed char\n#define int_fast16_t long\n#define int_fast32_t long\n#define int_fast64_t long\n#define uint_fast8_t unsigned char\n#define uint_fast16_t unsigned long\n#define uint_fast32_t unsigned long\n#define uint_fast64_t unsigned long\n#define intptr_t long\n#define intmax_t long\n#define uintptr_t unsigned long\n#define uintmax_t unsigned long\n"
}

/// Limits of these types (7.20.2, 7.20.3).
pub fn widths() -> &'static [u8]
    ensures { result.now ≡ spec.widths }
{
    b"#define INT8_MIN (-128)\n#define INT16_MIN (-32767-1)\n#define INT32_MIN (-2147483647-1)\n#define INT64_MIN (-9223372036854775807L-1)\n#define INT8_MAX 127\n#define INT16_MAX 32767\n#define INT32_MAX 2147483647\n#define INT64_MAX 9223372036854775807L\n#define UINT8_MAX 255\n#define UINT16_MAX 65535\n#define UINT32_MAX 4294967295U\n#define UINT64_MAX 18446744073709551615UL\n#define INTMAX_MIN (-9223372036854775807L-1)\n#define INTMAX_MAX 9223372036854775807L\n#define UINTMAX_MAX 18446744073709551615UL\n#define SIZE_MAX 18446744073709551615UL\n"
}

/// Constants of these types (7.20.4).
pub fn constants() -> &'static [u8]
    ensures { result.now ≡ spec.constants }
{
    b"#define INT8_C(c) c\n#define INT16_C(c) c\n#define INT32_C(c) c\n#define INT64_C(c) c ## L\n#define UINT8_C(c) c\n#define UINT16_C(c) c\n#define UINT32_C(c) c ## U\n#define UINT64_C(c) c ## UL\n"
}

/// Conversions of these types (7.8.1).
pub fn formats() -> &'static [u8]
    ensures { result.now ≡ spec.formats }
{
    b"#define PRId8 \"d\"\n#define PRIi8 \"i\"\n#define PRIu8 \"u\"\n#define PRIx8 \"x\"\n#define PRIX8 \"X\"\n#define PRIo8 \"o\"\n#define PRId16 \"d\"\n#define PRIi16 \"i\"\n#define PRIu16 \"u\"\n#define PRIx16 \"x\"\n#define PRIX16 \"X\"\n#define PRIo16 \"o\"\n#define PRId32 \"d\"\n#define PRIi32 \"i\"\n#define PRIu32 \"u\"\n#define PRIx32 \"x\"\n#define PRIX32 \"X\"\n#define PRIo32 \"o\"\n#define PRId64 \"ld\"\n#define PRIi64 \"li\"\n#define PRIu64 \"lu\"\n#define PRIx64 \"lx\"\n#define PRIX64 \"lX\"\n#define PRIo64 \"lo\"\n#define PRIdMAX \"ld\"\n#define PRIiMAX \"li\"\n#define PRIuMAX \"lu\"\n#define PRIxMAX \"lx\"\n#define PRIXMAX \"lX\"\n#define PRIoMAX \"lo\"\n#define PRIdPTR \"ld\"\n#define PRIiPTR \"li\"\n#define PRIuPTR \"lu\"\n#define PRIxPTR \"lx\"\n#define PRIXPTR \"lX\"\n#define PRIoPTR \"lo\"\n"
}
